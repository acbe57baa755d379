//! Writes photons as the records of a file: their wraps (overflow records) and words. Begin with `Picker` in
//! `picker.rt`; `photon_pick` feeds it.
#![tactic(auto)]

pub mod laws;
mod picker;
mod words;

pub use picker::Picker;
