// What a reader answers to a piece.
use crate::head::TagHead;
use crate::kind::TagKind;
use tally_base::{Fault, Header};

/// One step through a header. But for More and Refused, a step took `used` bytes from the front of the
/// piece. The caller feeds what is after them next, which may be nothing.
#[derive(Clone, Copy)]
pub enum HeaderStep {
    /// Took the whole piece, and completed neither the preamble nor a tag. The header goes on.
    More,
    /// The first 16 bytes of the file are whole: the magic and the version text.
    Preamble {
        used: usize,
        magic: [u8; 8],
        version: [u8; 8],
    },
    /// The 48 bytes of a tag are whole. `Header_End` is a tag too.
    Tag {
        used: usize,
        tag: TagHead,
        kind: TagKind,
    },
    /// Bytes of the last tag's body, at least one, and whether they complete it. A body of length 0
    /// has no such step.
    Body {
        used: usize,
        last: bool,
    },
    /// The header has ended before this piece, of which no byte was taken: `used` is 0.
    Done {
        used: usize,
        header: Header,
    },
    /// The bytes taken call for this refusal: BadMagic, TagType, TagLength, NoRecordType,
    /// UnknownRecordType or HeaderLimit.
    Refused(Fault),
}
