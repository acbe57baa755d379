//! What every other crate uses: record types, headers, events and blocks of them in columns, the settings of a
//! plan, what every table is (`Tally`), input slots, faults with their statuses and lines, and small functions that
//! append text and numbers to a line. Begin with `event.rt` and `tally.rt`; the faults are in `fault.rt`.
#![tactic(auto)]

mod block;
mod divisor;
mod event;
mod fault;
mod header;
mod limits;
mod line;
mod noted;
mod part;
mod settings;
mod slot;
mod steps;
mod tally;

pub use block::{BLOCK_SIZE, Block, TABLE_BLOCK, code_in, dtime_in, joined};
pub use divisor::Divisor;
pub use event::{Event, EventKind, OnReserved, Order, Policy, is_in};
pub use fault::{Fault, fault_line};
pub use header::{Header, Mode, RecordType};
pub use limits::{RECORD_LIMIT, WRAP_LIMIT};
pub use line::{put_decimal, put_hexadecimal, put_signed, put_text};
pub use noted::Noted;
pub use part::PartKind;
pub use settings::{
    CoincidenceSet, CorrelationSet, CubeSet, FoldSet, Group, HistSet, ImageSet, ShiftSet,
    StartStopSet, TraceSet,
};
pub use slot::{Failed, Slot};
pub use steps::Steps;
pub use tally::{Tally, floor_behind};
