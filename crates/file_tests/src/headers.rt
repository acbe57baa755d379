// Headers that are cut, and readers that have refused theirs: the tests of `ptu_header`.
ghost use Rattle.std.specs.Prelude.{◌≤◌, length};

use crate::checks::holds;
use ptu_header::{HeaderReader, HeaderStep};
use std::alloc::{AllocError, Global};
use std::test::Fail;
use tally_base::{Fault, Header, RecordType};

const EMPTY: u32 = 0xFFFF_0008;

const BOOL: u32 = 0x0000_0008;

const TEXT: u32 = 0x4001_FFFF;

const SHORT: [u8; 160] = *b"PQTTTR\0\01.0.00\0\0\
HW_Type\0\0\0\0\0\0\0\0\0\0\0\0\0\0\0\0\0\0\0\0\0\0\0\0\0\xff\xff\xff\xff\xff\xff\x01\x40\0\0\0\0\0\0\0\0\
TTResultFormat_TTTRRecType\0\0\0\0\0\0\xff\xff\xff\xff\x08\0\0\x10\x04\x03\x01\x01\0\0\0\0\
Header_End\0\0\0\0\0\0\0\0\0\0\0\0\0\0\0\0\0\0\0\0\0\0\xff\xff\xff\xff\x08\0\xff\xff\0\0\0\0\0\0\0\0";

const SHORT_HEADER: Header = Header {
    record_type: RecordType::HydraHarp2T3,
    count: None,
    global: None,
    resolution: None,
    version: *b"1.0.00\0\0",
};

/// Feeds a piece until the reader has no other step for it. Answers how many bytes are after the header.
fn feed_piece(reader: &mut HeaderReader, piece: &[u8]) -> usize {
    let mut rest = piece;
    for _ in 0..piece.len() + 1 {
        match reader.feed(rest) {
            HeaderStep::More => return 0,
            HeaderStep::Preamble { used, .. } => rest = rest.split_at(used).1,
            HeaderStep::Tag { used, .. } => rest = rest.split_at(used).1,
            HeaderStep::Body { used, .. } => rest = rest.split_at(used).1,
            HeaderStep::Done { .. } => return rest.len(),
            HeaderStep::Refused(_) => return rest.len(),
        }
    }
    rest.len()
}

/// What a reader answers at the end of its bytes.
fn end(mut reader: HeaderReader) -> Result<Header, Fault> {
    match reader.feed(&[]) {
        HeaderStep::Done { header, .. } => Ok(header),
        HeaderStep::More => Err(reader.finish()),
        HeaderStep::Refused(fault) => Err(fault),
        _ => Err(Fault::Usage),
    }
}

/// What a reader answers of these pieces.
fn answer(pieces: &[&[u8]]) -> Result<Header, Fault> {
    let mut reader = HeaderReader::new();
    for piece in pieces {
        feed_piece(&mut reader, piece);
    }
    end(reader)
}

#[test]
fn a_short_header_is_cut_at_each_place(_rt: HostRuntime) -> Result<(), Fail> {
    for cut in 0..160 {
        let (first, second) = SHORT.split_at(cut);
        let truncated = Err(Fault::TruncatedHeader { bytes: cut as u64 });
        holds(answer(&[first, second]) == Ok(SHORT_HEADER), cut)?;
        holds(answer(&[first]) == truncated, cut)?;
    }
    holds(answer(&[&SHORT, &[]]) == Ok(SHORT_HEADER), 160)?;
    Ok(())
}

/// What a step refuses.
fn refusal(step: HeaderStep) -> Option<Fault> {
    match step {
        HeaderStep::Refused(fault) => Some(fault),
        _ => None,
    }
}

/// What a reader that was fed these bytes answers to an empty piece, to eight bytes, and to an empty piece again.
fn answers_then(bytes: &[u8]) -> [Option<Fault>; 3] {
    let mut reader = HeaderReader::new();
    feed_piece(&mut reader, bytes);
    let first = refusal(reader.feed(&[]));
    let second = refusal(reader.feed(b"PQTTTR\0\0"));
    let third = refusal(reader.feed(&[]));
    [first, second, third]
}

/// The preamble and one tag.
fn with_tag(alloc: Global, name: &[u8], code: u32, value: u64) -> Result<Vec<u8>, AllocError>
    requires { length name.now ≤ 32 }
{
    let mut bytes = Vec::new(alloc);
    bytes.extend_from_slice(b"PQTTTR\0\01.0.00\0\0")?;
    let mut ident = [0; 32];
    ident[..name.len()].copy_from_slice(name);
    bytes.extend_from_slice(&ident)?;
    bytes.extend_from_slice(&u32::MAX.to_le_bytes())?;
    bytes.extend_from_slice(&code.to_le_bytes())?;
    bytes.extend_from_slice(&value.to_le_bytes())?;
    Ok(bytes)
}

#[test]
fn a_refusal_is_repeated(rt: HostRuntime) -> Result<(), Fail> {
    let alloc = rt.alloc();
    holds(answers_then(b"PQTTTS") == [Some(Fault::BadMagic); 3], 1)?;
    let unknown = with_tag(alloc, b"A", 0x3000_0008, 0)?;
    let tag_type = Fault::TagType {
        tag: 1,
        code: 0x3000_0008,
    };
    holds(answers_then(&unknown) == [Some(tag_type); 3], 2)?;
    let negative = with_tag(alloc, b"A", TEXT, u64::MAX)?;
    let tag_length = Fault::TagLength { tag: 1, length: -1 };
    holds(answers_then(&negative) == [Some(tag_length); 3], 3)?;
    let untyped = with_tag(alloc, b"Header_End", EMPTY, 0)?;
    holds(answers_then(&untyped) == [Some(Fault::NoRecordType); 3], 4)?;
    let unread = with_tag(alloc, b"TTResultFormat_TTTRRecType", BOOL, 1)?;
    holds(answers_then(&unread) == [None; 3], 5)?;
    Ok(())
}
