//! The multiple-tau correlation of two groups of photons, on levels of coarser and coarser time. Begin with
//! `specs/Correlation.antt`: what is counted; then `cascade.rt` and `level.rt`.
#![tactic(auto)]

mod bins;
mod carry;
mod cascade;
mod grid;
mod laid;
mod level;
mod pairing;
mod scratch;

pub use cascade::Cascade;
