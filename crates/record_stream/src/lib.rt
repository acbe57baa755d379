//! From bytes to events: the photons and markers of a stream of records, each given to a taker at most once, and in
//! order but for late ones, which may come sooner to a taker that lets them. Begin with `stream.rt` and `taker.rt`;
//! `blocks.rt` takes 64 words at a time, `runs.rt` those with late events, and `walk.rt` one word.
#![tactic(auto)]

mod ahead;
mod blocks;
mod columns_taker;
mod count;
mod in_blocks;
pub mod laws;
mod letting_go;
mod runs;
mod settled;
mod settled_blocks;
mod stream;
mod sums;
mod taker;
mod unwritten;
mod walk;

pub use ptu_definitions::Summary;
pub use stream::RecordStream;
pub use taker::EventTaker;
