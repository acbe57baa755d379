//! Pairs of photons by the time between them: the start-stop table (neighbours) and the coincidences (all pairs).
//! Begin with `specs/Intervals.antt` and `specs/Pairs.antt`: what is counted.
#![tactic(auto)]

mod closing;
mod coincidence;
mod counting;
mod gathering;
mod lags;
pub mod laws;
mod lone;
mod pairing;
mod places;
mod start;
mod start_stop;
mod stretch;
mod taking;

pub use coincidence::Coincidence;
pub use start_stop::StartStop;
