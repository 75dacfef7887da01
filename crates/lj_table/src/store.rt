use crate::closed::ClosedMap;
use lj_bitmap::RankMap;
use lj_deriv::Arena;

/// The parts of a table. The lists have an item for each cell of the arena's frame, in the order of its index.
#[derive(Drop)]
pub struct Store {
    pub arena: Arena,
    pub bounds: Vec<u64>,
    pub nodes: Vec<u64>,
    /// The cell is not open.
    pub closed: ClosedMap,
    /// The cell is not open, or it is taken.
    pub busy: RankMap,
}
