//! Designs: lists of blocks that cover their cell, and the rules by which one comes from others.
#![tactic(auto)]

mod constructions;
mod counts;
mod designs;
pub mod laws;
mod operations;

pub use constructions::{
    add_design, derive_design, derive2_design, drop_design, grow_design, join_blocks, lower_design,
};
pub use counts::{degree, has_both, pair_degree, runs_count};
pub use designs::Design;
pub use operations::{add_point, cut_first, drop_last, fill, relabel, unite, without};
