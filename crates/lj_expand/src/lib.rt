//! The blocks of plans: as many as the plan costs, and they cover.
#![tactic(auto)]

mod bases;
mod batches;
mod cuts;
mod expansion;
mod filling;
mod held;
mod lines;
mod nodes;
mod positions;
mod products;
mod streaming;
mod uses;
mod write;

pub use batches::block_at;
pub use expansion::{MAX_EXPANDED, expand_all};
pub use streaming::stream;
pub use write::write_blocks;
