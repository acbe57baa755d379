//! The command `trace`: a plan's first trace, written while a file is read. Begin with `trace.rt`, and with
//! `specs/TraceOutcomes.antt` for what it leaves.
#![tactic(auto)]

mod command;
mod trace;

pub use command::Tracing;
