/// The most blocks that one upload or one check may have.
pub const MAX_BLOCKS: u64 = 100_000;

/// The most sets of points that one check goes through.
pub const MAX_SETS: u64 = 1 << 27;

/// The most sets of points that the blocks of one check contain together, counted once for each block: these are the
/// ranks that a check marks.
pub const MAX_MARKS: u64 = 1 << 31;

/// The most bytes that are read as one input.
pub const MAX_INPUT: u64 = 1 << 26;

/// The most cells that a frame has: one for each `v` up to 99, `k` up to 25 and `t` up to 8.
pub const MAX_CELLS: u64 = 99 * (26 * 9);

/// Every cost is below this: no cell has this many sets.
pub const COST_LIMIT: u64 = 1 << 38;
