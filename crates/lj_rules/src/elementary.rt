ghost use Rattle.std.specs.Prelude.{◌≡◌, ◌⊎◌, ◌≤◌, [], ◌∷◌, IfSome, None};
ghost use Rattle.lj_base.specs.Frames.{InFrame};
ghost use Rattle.lj_base.specs.Bounds.{AreBounds, at_cell};
ghost use Rattle.lj_cover.specs.Instances.{IsInstance};
ghost use Rattle.lj_cover.specs.Rules.{Rule, rule_children};
ghost use Rattle.lj_rules.specs.Elementary.{IsElementaryChoice, IsElementary, IsLeastElementary, rule_of_kind};

use crate::choices::{Choice, Kind};
use lj_base::{Cell, Frame};

/// The elementary rule at the cell that has the lowest price, of those whose child is in the frame. It reads at most
/// four bounds and takes no memory.
pub fn best_elementary(frame: Frame, bounds: &[u64], cell: Cell) -> Option<Choice>
    requires inside { InFrame frame cell }
    requires bounds { AreBounds frame bounds.now }
    ensures least { IfSome result (IsLeastElementary frame (at_cell frame bounds.now) cell) }
    ensures none { result ≡ None → (r : Rule) → IsElementary r → IsInstance frame [] cell r → ⊥ }
{
    let drop = choice_of(frame, bounds, cell, Kind::Drop);
    let add = choice_of(frame, bounds, cell, Kind::Add);
    let grow = choice_of(frame, bounds, cell, Kind::Grow);
    let lower = choice_of(frame, bounds, cell, Kind::Lower);
    cheaper(cheaper(drop, add), cheaper(grow, lower))
}

// The rule of this kind at its price, where its child is in the frame.
fn choice_of(frame: Frame, bounds: &[u64], cell: Cell, kind: Kind) -> Option<Choice>
    requires inside { InFrame frame cell }
    requires bounds { AreBounds frame bounds.now }
    ensures kind { IfSome result (λ choice. choice.kind ≡ kind) }
    ensures choice { IfSome result (IsElementaryChoice frame (at_cell frame bounds.now) cell) }
    ensures none { result ≡ None → IsInstance frame [] cell (rule_of_kind kind cell) → ⊥ }
{
    let child = child_of(frame, cell, kind)?;
    Some(Choice {
        kind,
        child,
        cost: bounds[frame.index(child) as usize],
    })
}

// The child of the rule of this kind, where the rule may be used at the cell and its child is in the frame.
fn child_of(frame: Frame, cell: Cell, kind: Kind) -> Option<Cell>
    requires inside { InFrame frame cell }
    ensures instance { IfSome result (λ child. IsInstance frame [] cell (rule_of_kind kind cell)) }
    ensures child { IfSome result (λ child. rule_children (rule_of_kind kind cell) ≡ child ∷ []) }
    ensures inside { IfSome result (InFrame frame) }
    ensures none { result ≡ None → IsInstance frame [] cell (rule_of_kind kind cell) → ⊥ }
{
    let Cell { v, k, t } = cell;
    let top = frame.top;
    match kind {
        Kind::Drop => {
            if v < top.v {
                Some(Cell { v: v + 1, k, t })
            } else {
                None
            }
        }
        Kind::Add => {
            if t < k && 1 < v {
                Some(Cell {
                    v: v - 1,
                    k: k - 1,
                    t,
                })
            } else {
                None
            }
        }
        Kind::Grow => {
            if t < k {
                Some(Cell { v, k: k - 1, t })
            } else {
                None
            }
        }
        Kind::Lower => {
            if t < k && t < top.t {
                Some(Cell { v, k, t: t + 1 })
            } else {
                None
            }
        }
    }
}

// The cheaper of two choices, and the first where they cost the same.
fn cheaper(first: Option<Choice>, second: Option<Choice>) -> Option<Choice>
    ensures one { (result ≡ first) ⊎ (result ≡ second) }
    ensures first { IfSome first (λ f. IfSome result (λ choice. choice.cost ≤ f.cost)) }
    ensures second { IfSome second (λ s. IfSome result (λ choice. choice.cost ≤ s.cost)) }
    ensures none { result ≡ None → (first ≡ None) × (second ≡ None) }
{
    match (first, second) {
        (Some(f), Some(s)) => { if s.cost < f.cost { second } else { first } }
        (Some(_), None) => first,
        (None, _) => second,
    }
}
