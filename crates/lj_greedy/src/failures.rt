use thiserror::Error;

/// Why no greedy covering was made.
#[derive(Clone, Copy, Debug, PartialEq, Eq, Error)]
pub enum GreedyFail {
    /// The sets are more than `MAX_GREEDY_SETS`; their number.
    #[error("{n} sets are too many")]
    TSets { n: u64 },
    #[error("out of memory")]
    Memory,
}
