use lj_base::Cell;

/// What an upload offers, besides the text of its block lines.
#[derive(Clone, Copy, Debug, PartialEq, Eq)]
pub(crate) struct Offer {
    pub cell: Cell,
    // The number of lines of the body before the text.
    pub before: u64,
    // The number of blocks that a header announces.
    pub announced: Option<u64>,
}
