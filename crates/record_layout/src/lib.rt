//! Records of 32 bits: what each means in the four layouts, its parts, and how many there are of each kind. Begin with
//! `layout.rt`; `by_type.rt` finds the layout of a record type, and `lane_decode` takes many words at once.
#![tactic(auto)]

mod begun;
mod by_type;
mod counter;
mod fields;
mod hydra_t2;
mod hydra_t3;
mod kinds;
mod layout;
mod pico;
mod row;

pub use begun::BegunWord;
pub use by_type::decode;
pub use counter::Counter;
pub use fields::Fields;
pub use hydra_t2::HydraT2;
pub use hydra_t3::HydraT3;
pub use kinds::kinds_of;
pub use layout::RecordLayout;
pub use pico::{PicoT2, PicoT3};
pub use ptu_definitions::{KindCounts, Raw};
pub use row::Row;
