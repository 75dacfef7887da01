//! Tests of the live table and of runs of events over it: worked values from outside.
#![tactic(auto)]

#[cfg(test)]
mod calls;
#[cfg(test)]
mod forest_tests;
#[cfg(test)]
mod known_calls;
#[cfg(test)]
mod known_tests;
#[cfg(test)]
mod reopening_tests;
#[cfg(test)]
mod replay_tests;
#[cfg(test)]
mod runs;
#[cfg(test)]
mod settled_tests;
#[cfg(test)]
mod ticket_tests;
