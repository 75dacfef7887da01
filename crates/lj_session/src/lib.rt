//! Sessions: the commands of one client, each with its reply, driven by whoever holds the table.
#![tactic(auto)]

mod asks;
mod ends;
mod handling;
mod laws;
mod limits;
mod offering;
mod offers;
mod outcomes;
mod own;
mod reasons;
mod reply_texts;
mod sessions;
mod terms;

pub use asks::Ask;
pub use ends::{Replies, SessionEnd, Uploads};
pub use laws::{
    accepted_law, ask_law, building_law, limits_law, one_outcome_law, passing_law, serving_law,
};
pub use limits::MAX_WRITTEN;
pub use offering::offered;
pub use reasons::Reason;
pub use sessions::Session;
