//! Tests of sessions: worked replies from outside.
#![tactic(auto)]

#[cfg(test)]
mod driven;
#[cfg(test)]
mod expands;
#[cfg(test)]
mod offers;
#[cfg(test)]
mod uploads;
