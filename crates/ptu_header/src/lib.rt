//! Reads the header of a PTU file (PicoQuant's unified TTTR format) that comes in pieces of any length, and keeps
//! at most 48 bytes that are not judged yet. Begin with `HeaderReader` in `reader.rt`, and with
//! `specs/ReadHeader.antt` for what it promises.
#![tactic(auto)]

mod fields;
mod fill;
mod head;
mod kind;
mod reader;
mod step;

pub use head::TagHead;
pub use kind::TagKind;
pub use reader::{HEADER_LIMIT, HeaderReader};
pub use step::HeaderStep;
