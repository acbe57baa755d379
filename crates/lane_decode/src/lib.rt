//! Words decoded in lanes: the records of up to 64 words in columns, split eight at a time, their events put close
//! together into a block, and blocks of words decoded. Begin with `columns.rt`; `record_stream` reads files with these.
#![tactic(auto)]

mod block;
mod columns;
mod events;
mod lanes;

pub use block::decode_block;
pub use columns::Columns;
pub use events::close;
