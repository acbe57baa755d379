//! The photons of one group of a plan, written as the records of a file while another is read. Begin with
//! `piece.rt`, and with `specs/Chosen.antt` for which photons; `pick_work` is the command.
#![tactic(auto)]

mod choosing;
mod end;
mod giving;
pub mod laws;
mod piece;
mod taker;

pub use end::pick_end;
pub use piece::pick_piece;
