//! The live table: uploads in, least bounds out. For each cell of a frame a bound, with the derivation that costs it,
//! and a list of the cells at which something cheaper may be found.
#![tactic(auto)]

mod agreement;
mod closed;
mod differences;
mod fitting;
mod known;
mod lowering;
mod marks;
mod offers;
mod outcomes;
mod places;
mod readers;
mod rests;
mod rows;
mod rules;
mod starting;
mod store;
mod table;

pub use outcomes::{Claimed, Outcome};
pub use table::Table;
