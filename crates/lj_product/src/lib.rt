//! The product rule, which splits the points in two: the cheapest product at a cell.
#![tactic(auto)]

mod choices;
pub mod laws;
mod parts;
mod products;
mod sides;

pub use choices::{PartChoice, ProductChoice};
pub use products::{best_product, best_product_below, best_product_price};
