//! Uploads that were accepted, with what the rules need of them, and the quota of uploads and blocks.
#![tactic(auto)]

mod accepted;
mod least;
mod names;
mod quotas;
mod summaries;
mod tables;

pub use accepted::Accepted;
pub use names::Name;
pub use quotas::{QUOTA_BLOCKS, QUOTA_UPLOADS, Quota, QuotaFull};
