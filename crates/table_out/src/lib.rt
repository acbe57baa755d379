//! What the report of a run is printed as, and with `list_out` all that the program prints.
#![tactic(auto)]

mod cells;
mod correlation;
mod cube;
mod fold;
mod histogram;
mod image;
mod pairs;
mod report;
mod report_head;
mod start_stop;
mod trace;

pub use list_out::{BodyText, event_line, header_line};
pub use report::write_report;
