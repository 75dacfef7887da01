//! Laws of the coverings. Each function does nothing: its contract is the law.

ghost use Rattle.std.specs.Prelude.{◌<◌, ◌≤◌, ℕ, List, length};
ghost use Rattle.std.specs.List.{remove};
ghost use Rattle.lj_base.specs.Blocks.{Covers};
ghost use Rattle.lj_base.specs.Cells.{IsCell, Triple};
ghost use Rattle.lj_greedy.specs.Greedy.{greedy_list};
ghost use Rattle.lj_greedy.specs.Reduced.{IsSublist, reduced};

use lj_cover::laws::points_are_tested;
use lj_excess::{multiplicity_law, tally_law};
use lj_rank::{rank_law, sets_law};

/// What remains of a covering covers, does not without any one of its places, and has the covering's blocks in their
/// order.
pub fn reduced_law()
    ensures covers { (c : Triple) (bs : List (List ℕ)) → Covers bs c → Covers (reduced c bs) c }
    ensures needed { (c : Triple) (bs : List (List ℕ)) (i : ℕ) → i < length (reduced c bs) →
        Covers (remove (reduced c bs) i) c → ⊥ }
    ensures sublist { (c : Triple) (bs : List (List ℕ)) → IsSublist (reduced c bs) bs }
    ensures shorter { (c : Triple) (bs : List (List ℕ)) → length (reduced c bs) ≤ length bs }
{
    multiplicity_law();
    sets_law();
}

/// The greedy list of a cell covers it: its steps end with no set open.
pub fn greedy_law()
    ensures { (c : Triple) → IsCell c → Covers (greedy_list c) c }
{
    points_are_tested();
    rank_law();
    multiplicity_law();
    tally_law();
}
