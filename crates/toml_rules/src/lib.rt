//! Rules in their order up to the first that is broken, and what is read in the values of a TOML document.
//! `plan_text` has the rules of plans; begin with `rules.rt`.
#![tactic(auto)]

mod rules;
mod values;

pub use rules::{ListRule, each, held};
pub use values::{
    has_keys, integer_in, list_at, may_be_tables, number_in, number_or, second_of, truth_or,
};
