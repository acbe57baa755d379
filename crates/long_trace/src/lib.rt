//! The trace of the command `trace`, of any length: a line for each bin that isn't empty, once a later one begins,
//! and then how many bins have each count. Begin with `trace.rt`, and with `specs/Texts.antt` for what is printed.
#![tactic(auto)]

mod closed;
mod counting;
mod ending;
pub mod laws;
mod lines;
mod trace;

pub use lines::{LINE_SIZE, LINES_SIZE};
pub use trace::LongTrace;
