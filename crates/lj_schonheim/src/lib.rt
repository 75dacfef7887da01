//! Schönheim's lower number: no covering has fewer blocks.
#![tactic(auto)]

mod lower;

pub use lower::schonheim;
