//! The last bins of time that have photons, with their weights in two groups, cells that count pairs, and the
//! weights of many bins by tick with the sums of their products at many lags. Begin with `ring.rt`; `coincidence`,
//! `fold_count` and `tau_cascade` stand on it.
#![tactic(auto)]

mod bytes;
mod cells;
mod pairings;
mod ring;
mod window;

pub use bytes::{BYTE_LAGS, MOST_SPOTS, byte_lag_sums, put_side, spots_of, weight_bound};
pub use cells::PairCells;
pub use pairings::Pairings;
pub use ring::{Entry, LagRing};
pub use window::{Side, total_weight};
