use lj_base::Cell;

/// The rules that have one child.
#[derive(Clone, Copy, Debug, PartialEq, Eq)]
pub enum Kind {
    /// From a cell of one point more.
    Drop,
    /// From a cell of one point less, in the points and in the blocks.
    Add,
    /// From a cell whose blocks have one point less.
    Grow,
    /// From a cell whose sets have one point more.
    Lower,
}

/// A rule of one child at a cell, and its price: the child's bound.
#[derive(Clone, Copy, Debug, PartialEq, Eq)]
pub struct Choice {
    pub kind: Kind,
    pub child: Cell,
    pub cost: u64,
}
