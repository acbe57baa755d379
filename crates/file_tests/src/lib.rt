//! Bytes, words, headers and records in pieces, and what is written of them: the tests of the crates below the tables,
//! which would be proved anew with their own.
#![tactic(auto)]

#[cfg(test)]
mod checks;
#[cfg(test)]
mod faults;
#[cfg(test)]
mod headers;
#[cfg(test)]
mod kept_back;
#[cfg(test)]
mod lanes;
#[cfg(test)]
mod layouts;
#[cfg(test)]
mod made;
#[cfg(test)]
mod memory;
#[cfg(test)]
mod refused;
#[cfg(test)]
mod settled;
#[cfg(test)]
mod written;
