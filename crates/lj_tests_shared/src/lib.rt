//! Tests of the board and of the shared table: worked values from outside, and threads that read and lower at once.
#![tactic(auto)]

#[cfg(test)]
mod boards;
#[cfg(test)]
mod given;
#[cfg(test)]
mod states;
#[cfg(test)]
mod workers;
