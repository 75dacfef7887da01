//! Laws of multiplicities. Each function does nothing: its contract is the law.

ghost use Rattle.std.specs.Prelude.{◌≡◌, ◌↔◌, ℕ, ◌+◌, ◌*◌, ◌<◌, ◌≤◌, List, ◌++◌, IsTrue, length, slice_index};
ghost use Rattle.lj_base.specs.Blocks.{Covers, IsBlock, SomeContains, Within};
ghost use Rattle.lj_base.specs.Cells.{Triple};
ghost use Rattle.lj_base.specs.Colex.{choose};
ghost use Rattle.lj_rank.specs.Ranks.{rank_of};
ghost use Rattle.lj_excess.specs.Multiplicities.{contains_set, excess_in, multiplicities, multiplicity};
ghost use Rattle.lj_verify.specs.SetLaws.{SetLaws};

use lj_cover::laws::points_are_tested;
use lj_rank::{rank_law, sets_law, subset_law};

/// A set is contained where each of its points is in the block; its multiplicity is at least 1 where some block
/// contains it, at most the number of blocks, and that of a joined list is the sum.
pub fn multiplicity_law()
    ensures within { (s b : List ℕ) → IsTrue (contains_set s b) ↔ Within s b }
    ensures some { (bs : List (List ℕ)) (s : List ℕ) → (1 ≤ multiplicity bs s) ↔ SomeContains bs s }
    ensures most { (bs : List (List ℕ)) (s : List ℕ) → multiplicity bs s ≤ length bs }
    ensures joined { (bs cs : List (List ℕ)) (s : List ℕ) →
        multiplicity (bs ++ cs) s ≡ multiplicity bs s + multiplicity cs s }
{
    points_are_tested();
}

/// The multiplicities of a cell are one for each of its sets, that of a set stands at its rank, and each rank below
/// their number is that of a set.
pub fn tally_law()
    ensures count { (bs : List (List ℕ)) (c : Triple) → length (multiplicities bs c) ≡ choose c.v c.t }
    ensures at { (bs : List (List ℕ)) (c : Triple) (s : List ℕ) → IsBlock c.v c.t s →
        slice_index (multiplicities bs c) (rank_of s) ≡ multiplicity bs s }
    ensures ranks { (v t r : ℕ) → r < choose v t → (s : List ℕ) × IsBlock v t s × (rank_of s ≡ r) }
{
    rank_law();
    sets_law();
}

/// The excess of a covering is the number of sets in all its blocks, each block's counted on their own, less the number
/// of sets.
pub fn excess_law()
    ensures { (bs : List (List ℕ)) (c : Triple) → Covers bs c →
        excess_in (multiplicities bs c) + choose c.v c.t ≡ length bs * choose c.k c.t }
{
    points_are_tested();
    sets_law();
}

// What is known of ranks and of the sets of a block, for lemmas that take it as one argument.
pub(crate) fn set_laws()
    ensures { SetLaws }
{
    rank_law();
    subset_law();
}
