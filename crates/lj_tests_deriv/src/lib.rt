//! Tests of uploads, plans and their blocks: worked values from outside.
#![tactic(auto)]

#[cfg(test)]
mod expansions;
#[cfg(test)]
mod given;
#[cfg(test)]
mod plans;
#[cfg(test)]
mod positions;
#[cfg(test)]
mod uploads;
