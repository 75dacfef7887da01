//! Tests of counts, greedy coverings and reduced ones: worked values from outside, and plain programs.
#![tactic(auto)]

#[cfg(test)]
mod checks;
#[cfg(test)]
mod coverings;
#[cfg(test)]
mod given;
#[cfg(test)]
mod multiplicities;
mod plain;

pub use plain::{covers, greedy, multiplicity, reduced, sets};
