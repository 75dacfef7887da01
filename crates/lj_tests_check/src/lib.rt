//! Tests of both checks of a covering: worked values from outside.
#![tactic(auto)]

#[cfg(test)]
mod checks;
