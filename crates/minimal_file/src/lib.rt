//! A file of a header of two tags and of words: which bytes it has, and that the definitions of a file's bytes read
//! them back. `ptu_made` and `record_write` write such files.
#![tactic(auto)]

mod header;
pub mod laws;

pub use header::{HEADER_SIZE, short_header};
