//! The intensity trace: how many photons of a group are in each bin of the absolute time. Begin with
//! `specs/TraceCounts.antt`: what is counted.
#![tactic(auto)]

mod bin;
mod counting;
pub mod laws;
mod trace;

pub use bin::Bin;
pub use trace::Trace;
