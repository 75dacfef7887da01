/// The most sets of points for which a greedy covering is made; it has at most one block for each.
pub const MAX_GREEDY_SETS: u64 = 100_000;
