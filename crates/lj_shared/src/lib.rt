//! One table behind a lock, beside a board: workers and settling clients improve its bounds turn by turn, and readers
//! look at the board's words without the lock.
#![tactic(auto)]

mod held;
mod known;
mod locked;
mod shared;
mod state;

pub use known::{KnownProposal, KnownTicket};
pub use shared::{Shared, Worked};
pub use state::{Next, State};
