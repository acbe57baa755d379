//! Images of a scan: where a photon is by the markers before it, its line, its row and its column (`specs/Places.antt`),
//! and how many photons of a group are in each pixel. Begin with `specs/ImageCounts.antt`: what is counted; `count.rt` is
//! the loop that `flim_cube` uses too.
#![tactic(auto)]

mod bits;
mod count;
mod image;
pub mod laws;
mod lines;
mod pixels;
mod strip;

pub use count::count_block;
pub use image::Image;
pub use lines::Lines;
pub use pixels::Pixels;
