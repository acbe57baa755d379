//! Lifetime images (FLIM): an image of a scan with a TCSPC histogram in each pixel. Begin with
//! `specs/CubeCounts.antt`: what is counted.
#![tactic(auto)]

mod count;
mod cube;
pub mod laws;
mod spread;

pub use cube::FlimCube;
