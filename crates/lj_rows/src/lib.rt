//! The rows of uploads at a cell: how many blocks of an upload have each number of points among the cell's first ones.
#![tactic(auto)]

mod rows;

pub use rows::{present_rows, row_of, serves};
