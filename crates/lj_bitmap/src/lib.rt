//! Marks on the numbers below a limit, one bit each.
#![tactic(auto)]

mod laws;
mod maps;
mod words;

pub use laws::marks_law;
pub use maps::RankMap;
