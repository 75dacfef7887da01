//! Derivations: an arena of nodes that only grows, and plans that stand alone.
#![tactic(auto)]

mod admitting;
mod arena;
mod bounded_lists;
mod children;
mod copying;
mod counts;
mod forests;
pub mod laws;
mod limits;
mod plans;
mod renumbering;
mod rules;
mod texts;

pub use arena::Arena;
pub use bounded_lists::Numbers;
pub use children::cut_sizes;
pub use forests::Forest;
pub use limits::{MAX_ARENA_UPLOADS, MAX_NODES};
pub use plans::Plan;
pub use rules::{Part, Rule};
