/// A part of a product: it serves the sets that have from `a` to `b` points on the first side, by blocks that have `l`
/// points there.
#[derive(Clone, Copy, Debug, PartialEq, Eq)]
pub struct PartChoice {
    pub a: u8,
    pub b: u8,
    pub l: u8,
}

/// A product with `v1` points on its first side, and its price. Its parts are the first `count` of the array.
#[derive(Clone, Copy, Debug, PartialEq, Eq)]
pub struct ProductChoice {
    pub v1: u8,
    pub parts: [PartChoice; 9],
    pub count: u8,
    pub cost: u64,
}
