use thiserror::Error;

/// Why the sets of a cell were not counted.
#[derive(Clone, Copy, Debug, PartialEq, Eq, Error)]
pub enum CountFail {
    /// The sets are more than `MAX_COUNTS`; their number.
    #[error("{n} sets are too many")]
    TSets { n: u64 },
    #[error("out of memory")]
    Memory,
}
