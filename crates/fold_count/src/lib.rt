//! n-fold coincidences: which groups have a photon in the window that begins at a photon. Begin with
//! `specs/FoldCounts.antt`: what is counted.
#![tactic(auto)]

mod fold;
mod groups;
pub mod laws;
mod taking;
mod waiting;

pub use fold::Fold;
