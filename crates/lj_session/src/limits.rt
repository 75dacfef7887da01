/// The most blocks that all expand replies of one client have.
pub const MAX_WRITTEN: u64 = lj_expand::MAX_EXPANDED;
