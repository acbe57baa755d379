//! The commands on FILE alone: `count`, `header` and `events`. Begin with `command.rt`, and with
//! `specs/FileOutcomes.antt` for what they leave.
#![tactic(auto)]

mod command;
mod counting;
mod counts;
mod data;
mod events;
mod print;

pub use counting::Counting;
pub use counts::write_counts;
pub use data::Printing;
pub use events::Listing;
