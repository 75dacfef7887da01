use lj_base::Cell;
use lj_verify::Refusal;
use thiserror::Error;

/// Why a certificate is not good: the first upload, node or cell that fails, in the order of the parts.
#[derive(Clone, Copy, Debug, PartialEq, Eq, Error)]
pub enum No {
    /// The upload at this place, from 0, is refused by the check.
    #[error("upload {place} does not cover")]
    Upload { place: u64, refusal: Refusal },
    /// The node with this number is no derivation of its line's cell and cost.
    #[error("node {number} is no derivation")]
    Node { number: u64 },
    /// The node of this cell's bound is not there, or is of another cell or cost, or the bound is above the number of
    /// sets.
    #[error("a bound is not met")]
    Bound { cell: Cell },
    /// At this cell a rule has this cost, the least there, which is below the bound.
    #[error("a rule costs {cost}, less than a bound")]
    Low { cell: Cell, cost: u64 },
    #[error("out of memory")]
    Memory,
}
