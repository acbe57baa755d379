//! Reads a plan: what makes it invalid, its groups of photons, and the tables that it asks for. Begin with
//! `read.rt`; each part of a plan has a file here and one in `specs/`, and `kind.rt` is what every kind of table
//! is.
#![tactic(auto)]

mod coincidences;
mod correlations;
mod cubes;
mod document;
mod fits;
mod folds;
mod groups;
mod histograms;
mod images;
mod kind;
pub mod laws;
mod plan;
mod read;
mod settle;
mod shifts;
mod startstops;
mod traces;
mod version;

pub use plan::Plan;
pub use read::{TEXT_LIMIT, read_plan};
