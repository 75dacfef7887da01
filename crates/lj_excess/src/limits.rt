/// The most sets of points whose multiplicities are counted, in 4 bytes each.
pub const MAX_COUNTS: u64 = 1 << 24;
