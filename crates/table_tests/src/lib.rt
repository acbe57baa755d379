//! Plans, known events, and the tables of them: the tests of `plan_text`, `gate_plan` and the tables, and of the rings
//! and lines on which they stand, which would be proved anew with their own.
#![tactic(auto)]

#[cfg(test)]
mod given;
#[cfg(test)]
mod groups;
#[cfg(test)]
mod places;
#[cfg(test)]
mod plans;
#[cfg(test)]
mod rings;
#[cfg(test)]
mod rows;
#[cfg(test)]
mod tables;
