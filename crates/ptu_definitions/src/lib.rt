//! What the bytes of a file mean, as definitions: `specs/` has them, and here is the plain data that they speak of.
//! Begin with `specs/Layouts.antt` (records), `specs/Times.antt` (absolute times) and `specs/Kept.antt` (late
//! events).
#![tactic(auto)]

mod found;
pub mod laws;
mod records;

pub use found::Found;
pub use records::{KindCounts, Raw, Summary};
