//! The command `pick`: the photons of a plan's group, written while a file is read. Begin with `pick.rt`, and with
//! `specs/PickOutcomes.antt` for what it leaves.
#![tactic(auto)]

mod command;
mod pick;

pub use command::Picking;
