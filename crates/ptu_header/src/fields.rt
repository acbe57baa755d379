// The fields of a header, from the tags that are read.
ghost use Rattle.std.specs.Prelude.{◌≡◌, List, ℕ, IfErr, false};
ghost use Rattle.{ptu_definitions.specs.Fields.{value_under, or_else, with_tag, header_of}, ptu_header.specs.Kinds.IsHead, tally_base.specs.Faults.is_outside};

use crate::fill::same;
use crate::head::TagHead;
use ptu_definitions::Found;
use tally_base::{Fault, Header, RecordType};

const INT8: u32 = 0x1000_0008;

const FLOAT8: u32 = 0x2000_0008;

/// The first value of two, where there is one.
fn first(found: Option<u64>, later: Option<u64>) -> Option<u64>
    ensures { result ≡ or_else found later }
{
    match found {
        None => later,
        Some(value) => Some(value),
    }
}

/// The value of a tag that has this name and type.
fn value(head: &TagHead, name: &[u8], code: u32) -> Option<u64>
    ensures { (tag : List ℕ) → IsHead tag head.now → result ≡ value_under name.now code tag }
{
    if head.code == code && same(head.name(), name) {
        return Some(head.value);
    }
    None
}

/// What was found, with one more tag.
pub(crate) fn with(found: &Found, head: &TagHead) -> Found
    ensures { (tag : List ℕ) → IsHead tag head.now → result ≡ with_tag found.now tag }
{
    Found {
        record_type: first(
            found.record_type,
            value(head, b"TTResultFormat_TTTRRecType", INT8),
        ),
        count: first(found.count, value(head, b"TTResult_NumberOfRecords", INT8)),
        global: first(
            found.global,
            value(head, b"MeasDesc_GlobalResolution", FLOAT8),
        ),
        resolution: first(
            found.resolution,
            value(head, b"MeasDesc_Resolution", FLOAT8),
        ),
    }
}

/// The header that these fields make.
#[tactic(auto, unfolding(ptu_definitions::specs::Fields::header_of))]
pub(crate) fn header(version: [u8; 8], found: &Found) -> Result<Header, Fault>
    ensures answer { result ≡ header_of version found.now }
    ensures inside { IfErr result (λ fault. is_outside fault ≡ false) }
{
    let Some(value) = found.record_type else {
        return Err(Fault::NoRecordType);
    };
    let value = value.cast_signed();
    let Some(record_type) = RecordType::of(value) else {
        return Err(Fault::UnknownRecordType { value });
    };
    let count = match found.count {
        Some(count) => Some(count.cast_signed()),
        None => None,
    };
    Ok(Header {
        record_type,
        count,
        global: found.global,
        resolution: found.resolution,
        version,
    })
}
