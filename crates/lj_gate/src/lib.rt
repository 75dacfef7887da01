//! The threads of a run: clients that are served over one shared table, and workers that improve it.
#![tactic(auto)]

mod clients;
mod driving;
mod gates;
mod runs;
mod serves;
mod serving;
mod workers;

pub use gates::{FreeGate, Gate};
pub use runs::{Ran, run};
pub use serves::{Served, serve};
pub use serving::{Accepting, Serving};
