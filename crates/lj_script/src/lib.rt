//! Scripts: read from bytes, with each fault named.
#![tactic(auto)]

mod bodies;
mod faults;
mod forms;
mod growing;
mod laws;
mod limits;
mod reading;
mod scripts;

pub use faults::ScriptFault;
pub use laws::script_law;
pub use limits::{MAX_CLIENTS, MAX_COMMANDS};
pub use reading::read_script;
pub use scripts::{Body, Command, Commands, Script, Section, Sections};

#[cfg(test)]
mod tests;
