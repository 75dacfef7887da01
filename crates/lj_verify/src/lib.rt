//! The check: whether blocks cover a cell, within limits, and if not the first set that no block contains.
#![tactic(auto)]

mod bits;
mod covering;
mod laws;
mod limits;
mod pairs;
mod pieces;
mod plain;
mod ranges;
mod refusals;
mod sizes;
mod strings;
#[cfg(test)]
mod tests;
mod texts;
mod workers;

pub use covering::check;
pub use laws::outcome_law;
pub use limits::MAX_WORKERS;
pub use plain::check_plain;
pub use refusals::Refusal;
pub use texts::{put_points, put_refusal};
