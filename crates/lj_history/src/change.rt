use lj_base::Cell;

/// The bound of a cell became a cost.
#[derive(Clone, Copy, Debug, PartialEq, Eq)]
pub struct Change {
    pub cell: Cell,
    pub cost: u64,
}
