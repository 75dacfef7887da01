//! The generated script: an upload of all quadruples with xor 0, and questions about the bounds that follow from it.
#![tactic(auto)]

mod laws;
mod limits;
mod quadruples;
mod scripts;

pub use laws::quadruples_law;
pub use limits::{MAX_DIMENSION, MIN_DIMENSION};
pub use scripts::gen_script;
