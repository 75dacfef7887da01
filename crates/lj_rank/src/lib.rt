//! Sets of at most 8 points, and their ranks in colexicographic order.
#![tactic(auto)]

mod laws;
mod ranks;
mod sets;

pub use laws::{order_law, rank_law, sets_law, subset_law};
pub use ranks::{next, rank, seek, unrank};
pub use sets::TSet;
