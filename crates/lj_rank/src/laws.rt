//! Laws of ranks and of the sets of a block. Each function does nothing: its contract is the law.

ghost use Rattle.std.specs.Prelude.{◌≡◌, ◌<◌, ◌↔◌, ℕ, length, Contains};
ghost use Rattle.lj_base.specs.Blocks.{IsBlock};
ghost use Rattle.lj_base.specs.Colex.{choose, Precedes, sets};
ghost use Rattle.lj_rank.specs.Ranks.{RankLaws, SubsetLaws, rank_of};

/// Each set stands at its rank, the ranks are below the number of sets, and a last point adds the number of sets of the
/// same size of points below it.
pub fn rank_law()
    ensures { RankLaws }
{}

/// Of two sets of the same size, the one of the lower rank stands before the other.
pub fn order_law()
    ensures { (v k : ℕ) (s t : _) → IsBlock v k s → IsBlock v k t → (Precedes s t ↔ (rank_of s < rank_of t)) }
{}

/// `sets v k` has each set of `k` points below `v` and nothing else, as many as `choose v k` says.
pub fn sets_law()
    ensures members { (v k : ℕ) (s : _) → (Contains (sets v k) s ↔ IsBlock v k s) }
    ensures count { (v k : ℕ) → length (sets v k) ≡ choose v k }
{}

/// The sets of a block's points: they are below what the block is below, none has more points than the block, and
/// those of a block with one more point lack that point or are a smaller set and the point.
pub fn subset_law()
    ensures { SubsetLaws }
{}
