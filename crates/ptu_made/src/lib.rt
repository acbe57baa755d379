//! A valid file of photons of any size, made from a seed while it is read: the data of `demo`. Begin with
//! `made.rt`, and with `specs/Generator.antt` for the photons.
#![tactic(auto)]

pub mod laws;
mod made;
mod photon_words;
mod photons;
mod slot;
mod unread;

pub use made::{Made, PHOTON_LIMIT};
