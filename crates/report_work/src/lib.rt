//! The commands that print a report: `run`, and `demo`, which runs a fixed plan over a made file. Begin with
//! `run.rt`, and with `specs/Reports.antt` for what they print.
#![tactic(auto)]

mod made;
mod run;

pub use made::{DEMO_PLAN, demo};
pub use run::Reporting;
