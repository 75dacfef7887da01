//! Coverings made from nothing by greedy choices, and coverings without spare blocks.
#![tactic(auto)]

mod covering;
mod failures;
mod gains;
mod growing;
mod laws;
mod limits;
mod reducing;

pub use covering::greedy;
pub use failures::GreedyFail;
pub use laws::{greedy_law, reduced_law};
pub use limits::MAX_GREEDY_SETS;
pub use reducing::{reduce, reduce_counted};
