//! The board: a word for each cell of a frame, which only falls, and passes that look at the words without a lock and
//! remember the least number that they have seen of each cell.
#![tactic(auto)]

mod board;
mod setting;
mod steps;

pub use board::{Board, Pass};
pub use setting::Setting;
