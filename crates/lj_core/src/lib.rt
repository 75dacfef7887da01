//! Runs of events over the live table: uploads, claims, publications and reads of any number of workers, in any order,
//! one after the other. What is proved of one run is proved of each order in which threads may come to the table.
#![tactic(auto)]

mod events;
pub mod laws;
mod reads;
mod replays;
mod tickets;

pub use events::Event;
pub use reads::Reads;
pub use replays::{Trace, replay};
pub use tickets::WORKERS;
