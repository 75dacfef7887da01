//! Cells, frames, blocks, binomials, and the sources and sinks of bytes: what every other crate stands on.
#![tactic(auto)]

mod binomials;
mod blocks;
mod cells;
mod errors;
mod frames;
mod in_memory;
mod laws;
pub mod limits;
mod offsets;
mod points;
mod rows;
mod standard;
mod streams;

pub use binomials::binom;
pub use blocks::Block;
pub use cells::{Cell, Outside};
pub use errors::Memory;
pub use frames::Frame;
pub use in_memory::{MemSink, MemSource};
pub use laws::{
    at_cell_law, cells_law, choose_law, choose_product_law, index_law, index_order_law,
};
pub use limits::{COST_LIMIT, MAX_BLOCKS, MAX_CELLS, MAX_INPUT, MAX_MARKS, MAX_SETS};
pub use points::Points;
pub use rows::Row;
pub use standard::{StdSink, StdSource};
pub use streams::{Failed, Sink, Source};
