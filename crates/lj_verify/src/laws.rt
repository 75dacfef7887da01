ghost use Rattle.std.specs.Prelude.{◌≡◌, length};
ghost use Rattle.lj_base.specs.Blocks.{Covers};
ghost use Rattle.lj_verify.specs.Limits.{IsWithinLimits};
ghost use Rattle.lj_verify.specs.Refusals.{IsRefused};
ghost use Rattle.lj_verify.specs.SetLaws.{SetLaws};

use crate::refusals::Refusal;
use lj_rank::{order_law, rank_law, subset_law};

/// A check of a list of blocks has one outcome, unless memory runs out: at most one refusal holds of the list, and none
/// where the list covers within the limits.
pub fn outcome_law()
    ensures one_refusal { (c : _) (bs : _) (a b : _) → IsRefused c bs a → IsRefused c bs b →
        (a ≡ Refusal.Memory → ⊥) → (b ≡ Refusal.Memory → ⊥) → a ≡ b }
    ensures no_refusal { (c : _) (bs : _) (a : _) → IsWithinLimits c (length bs) → Covers bs c → IsRefused c bs a →
        a ≡ Refusal.Memory }
{
    order_law();
    rank_law();
}

// What is known of ranks and of the sets of a block, for lemmas that take it as one argument.
pub(crate) fn set_laws()
    ensures { SetLaws }
{
    rank_law();
    subset_law();
}
