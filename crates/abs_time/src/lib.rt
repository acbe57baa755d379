//! The clock of a file: absolute times of records (macrotimes), and which events are late (out of order). Begin
//! with `clock.rt`; `record_stream` uses it.
#![tactic(auto)]

mod clock;
mod floor;

pub use clock::{Clock, Placed, is_ordered};
pub use floor::{moved_floor, orders_markers};
