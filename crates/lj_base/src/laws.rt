//! Laws of frames, of bounds and of numbers of sets. Each function does nothing: its contract is the law.

ghost use Rattle.std.specs.Prelude.{◌≡◌, ◌≢◌, ℕ, ◌+◌, ◌-◌, ◌*◌, ◌^◌, ◌<◌, ◌≤◌, ◌↔◌, Some, length, slice_get, slice_set};
ghost use Rattle.std.specs.Prelude.{Contains};
ghost use Rattle.lj_base.specs.Bounds.{at_cell};
ghost use Rattle.lj_base.specs.Cells.{IsCell, Triple};
ghost use Rattle.lj_base.specs.Colex.{choose, sets};
ghost use Rattle.lj_base.specs.Frames.{InFrame, IsBefore, Top, cells_before_k, cells_before_v, cells_of, index_of, key};
ghost use Rattle.lj_base.specs.Frames.{size_of};

use crate::limits::{COST_LIMIT, MAX_CELLS};

/// On the cells of a frame the index is one to one and below the frame's size, which is small. It is the sum of the
/// number of cells with a lesser `v`, the number of those with the same `v` and a lesser `k`, and `t`.
pub fn index_law()
    ensures below { (f : Top) (c : Triple) → InFrame f c → index_of f c < size_of f }
    ensures one_to_one { (f : Top) (c d : Triple) → InFrame f c → InFrame f d → index_of f c ≡ index_of f d → c ≡ d }
    ensures size { (f : Top) → IsCell f.top → size_of f ≤ MAX_CELLS }
    ensures offsets { (f : Top) (c : Triple) → index_of f c ≡ cells_before_v f c.v + cells_before_k f c.k + c.t }
{}

/// The index numbers a frame's cells in ascending order of `v`, then `k`, then `t`; and so does a number that does not
/// depend on the frame.
pub fn index_order_law()
    ensures order { (f : Top) (c d : Triple) → InFrame f c → InFrame f d
        → (IsBefore c d ↔ (index_of f c < index_of f d)) }
    ensures key { (c d : Triple) → IsCell c → IsCell d → (IsBefore c d ↔ (key c < key d)) }
{}

/// The list of a frame's cells has just the frame's cells, each at its index alone.
pub fn cells_law()
    ensures members { (f : Top) (c : Triple) → IsCell f.top → (Contains (cells_of f) c ↔ InFrame f c) }
    ensures places { (f : Top) (i : ℕ) (c : Triple) → IsCell f.top
        → ((slice_get (cells_of f) i ≡ Some c) ↔ (InFrame f c × (index_of f c ≡ i))) }
    ensures count { (f : Top) → length (cells_of f) ≡ size_of f }
{}

/// A number that is stored for a cell, at its index, is the cell's; the other cells keep theirs.
pub fn at_cell_law()
    ensures stored { (f : Top) (numbers : _) (c : Triple) (n : ℕ) → InFrame f c → length numbers ≡ size_of f
        → at_cell f (slice_set numbers (index_of f c) n) c ≡ n }
    ensures others { (f : Top) (numbers : _) (c d : Triple) (n : ℕ) → InFrame f c → InFrame f d → d ≢ c
        → at_cell f (slice_set numbers (index_of f c) n) d ≡ at_cell f numbers d }
{}

/// The number of sets of `k` points among `n`: 0 where `k` is greater, 1 for all points, and else at least 1. It does
/// not fall where points are added, and the list of these sets has this many.
pub fn choose_law()
    ensures past { (n k : ℕ) → n < k → choose n k ≡ 0 }
    ensures all { (n : ℕ) → choose n n ≡ 1 }
    ensures some { (n k : ℕ) → k ≤ n → 1 ≤ choose n k }
    ensures grows { (n m k : ℕ) → n ≤ m → choose n k ≤ choose m k }
    ensures small { (n k : ℕ) → n ≤ 99 → k ≤ 8 → choose n k < COST_LIMIT }
    ensures count { (n k : ℕ) → length (sets n k) ≡ choose n k }
{}

/// The points are split in two: a set on each side makes one set of all points, so that the products of their numbers
/// are at most the number of those sets. Within the limits of cells a product fits into 61 bits.
pub fn choose_product_law()
    ensures most { (a s b u : ℕ) → choose a s * choose b u ≤ choose (a + b) (s + u) }
    ensures small { (a s b u : ℕ) → a + b ≤ 99 → s ≤ 8 → u ≤ 8 → choose a s * choose b u < 2 ^ 61 }
{}
