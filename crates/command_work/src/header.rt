// Feeds whole pieces to a header reader.
ghost use Rattle.std.specs.Prelude.{◌≤◌, ◌^◌, List, ℕ};
ghost use Rattle.{ptu_header.specs.ReadHeader.{HasRead, bytes_taken}, command_work.specs.Pieces.{Ends, TakesPiece, RefusesInside}};

use ptu_header::{HeaderReader, HeaderStep};
use tally_base::{Fault, Header};

/// How a piece leaves a header reader.
#[derive(Clone, Copy)]
pub(crate) enum Fed {
    /// The reader has taken the whole piece and goes on.
    More,
    /// The header ends with the first `used` bytes of the piece.
    Done { used: usize, header: Header },
    /// The bytes are no header.
    Refused { fault: Fault },
}

/// Feeds a whole piece, or the part of it that ends the header.
pub(crate) fn feed_piece(reader: &mut HeaderReader, piece: &[u8]) -> Fed
    requires { (bytes : List ℕ) × HasRead reader.old bytes }
    ensures ends { (bytes : List ℕ) → HasRead reader.old bytes
        → Ends bytes piece.now reader.new result }
    ensures taken { TakesPiece reader.old reader.new piece.now result }
    ensures limit { bytes_taken reader.new ≤ 2 ^ 24 }
    ensures inside { RefusesInside result }
{
    let mut used = 0;
    'steps: loop {
        match reader.feed(piece.split_at(used).1) {
            HeaderStep::More => return Fed::More,
            HeaderStep::Preamble { used: more, .. } => used += more,
            HeaderStep::Tag { used: more, .. } => used += more,
            HeaderStep::Body { used: more, .. } => used += more,
            HeaderStep::Done { header, .. } => return Fed::Done { used, header },
            HeaderStep::Refused(fault) => return Fed::Refused { fault },
        }
    }
}
