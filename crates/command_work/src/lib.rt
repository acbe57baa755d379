//! What all commands share: what a command's work on the bytes of FILE is and what a run of it leaves, PLAN read
//! whole, FILE read up to the end of its header, and the work done on FILE alone or by a plan. Begin with
//! `work.rt`, and with `specs/Behaviours.antt` for the three shapes of a command.
#![tactic(auto)]

mod data;
mod header;
mod job;
mod plan;
mod work;

pub use data::{FoundHeader, PIECE, READ_FAULT, read_header};
pub use job::{Job, Reader, read_file};
pub use work::{FileWork, PlanWork, by_plan, on_file};
