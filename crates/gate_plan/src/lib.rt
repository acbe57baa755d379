//! The shifted dtime of an event, and which groups of a plan it is in: of one, and of those of a block.
#![tactic(auto)]

mod blocks;
mod copies;
mod gated;
mod gates;
mod only_gate;
mod shifts;
mod table;

pub use blocks::sort_events;
pub use gates::Gates;
pub use only_gate::OnlyGate;
