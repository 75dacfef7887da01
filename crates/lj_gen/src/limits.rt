/// The least m of a generated script, whose points are those of the affine space of m dimensions over the field of two
/// elements.
pub const MIN_DIMENSION: u64 = 2;

/// The greatest m: a frame has at most 99 points.
pub const MAX_DIMENSION: u64 = 6;
