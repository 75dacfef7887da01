//! The elementary rules, which have one child: the cheapest of them at a cell.
#![tactic(auto)]

mod choices;
mod elementary;

pub use choices::{Choice, Kind};
pub use elementary::best_elementary;
