//! Tests of prices: worked values from outside, and a plain program beside each call, compared at every cell of small
//! frames.
#![tactic(auto)]

#[cfg(test)]
mod lists;
#[cfg(test)]
mod plain;
#[cfg(test)]
mod price_tests;
#[cfg(test)]
mod reader_tests;
#[cfg(test)]
mod ticket_tests;
