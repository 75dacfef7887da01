use lj_base::Cell;

/// What a claim has taken.
#[derive(Clone, Copy, Debug, PartialEq, Eq)]
pub enum Claimed {
    Cell { cell: Cell },
    NoneOpen,
}

/// What a publication has done: whether the cell's bound has fallen, and whether the ticket agreed with the table.
#[derive(Clone, Copy, Debug, PartialEq, Eq)]
pub struct Outcome {
    pub lowered: bool,
    pub agreed: bool,
}
