//! Relaxation: the steps of a table of bounds and what they keep, the ticket that a worker takes along, the least price
//! of an instance over it, and which cells read which.
#![tactic(auto)]

mod dependents;
mod found;
pub mod laws;
mod prices;
mod proposals;
mod reading;
mod tickets;

pub use dependents::Dependents;
pub use found::Found;
pub use prices::{instance_below, least_instance, least_price};
pub use proposals::{Proposal, evaluate};
pub use reading::reads;
pub use tickets::Ticket;
