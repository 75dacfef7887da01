/// The most nodes that an arena may have, with those for which it has room.
pub const MAX_NODES: u64 = 1 << 59;

/// The most uploads that an arena may hold.
pub const MAX_ARENA_UPLOADS: u64 = 1 << 32;
