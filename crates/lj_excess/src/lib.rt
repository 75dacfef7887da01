//! How many blocks of a covering contain each set of points, and by how much that exceeds once for each.
#![tactic(auto)]

mod checks;
mod counts;
mod failures;
mod laws;
mod limits;
mod walks;

pub use checks::{Counted, check_counted};
pub use counts::Counts;
pub use failures::CountFail;
pub use laws::{excess_law, multiplicity_law, tally_law};
pub use limits::MAX_COUNTS;
