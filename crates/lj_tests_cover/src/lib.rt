//! Tests of the rules on coverings: worked values from outside, and a plain program.
#![tactic(auto)]

#[cfg(test)]
mod rules;
#[cfg(test)]
mod rules_on_lists;
