//! The induced rule, which cuts the blocks of an upload: the cheapest row of an upload at a cell.
#![tactic(auto)]

mod choices;
mod rows;

pub use choices::InducedChoice;
pub use rows::best_induced;
