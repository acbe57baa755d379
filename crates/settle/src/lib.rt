//! A reorder window: events that come a few places too late are put in their places in time. Begin with
//! `settle.rt`, and with `specs/Standing.antt` for what it promises.
#![tactic(auto)]

pub mod laws;
mod settle;

pub use settle::{Settle, Settled};
