//! Samples for tests: blocks, coverings and uploads, each of them stated in its contract.
#![tactic(auto)]

mod blocks;
mod coverings;
mod uploads;

pub use blocks::{block, block_of};
pub use coverings::{
    covering, covers_law, fano_plane, five_fives, four_triples, fourteen_planes, pairs_of_three,
    runs_of_two, three_fours,
};
pub use uploads::upload;
