//! One thread builds the sections of a script, each over the table of those before it; and a run is closed with a table
//! at rest over what its sessions accepted.
#![tactic(auto)]

mod builds;
mod closing;
mod driving;
mod ends;
mod laws;
mod matching;

pub use builds::{Built, build};
pub use closing::{Closed, close};
pub use ends::Ends;
pub use laws::one_report_law;

#[cfg(test)]
mod tests;
