//! The TCSPC histogram: how many photons of a group are in each bin of the dtime. Begin with
//! `specs/HistogramCounts.antt`: what is counted; the other tables are made in the same way.
#![tactic(auto)]

mod hist;
pub mod laws;
mod picking;

pub use hist::Hist;
