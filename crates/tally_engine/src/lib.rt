//! All tables of a plan: opened, fed by one stream of records, and closed. Begin with `Engine` in `engine.rt`.
#![tactic(auto)]

mod engine;
mod give;
pub mod laws;
mod open;
mod part;
mod part_taker;
mod results;

pub use engine::Engine;
pub use part::Part;
pub use results::Results;
