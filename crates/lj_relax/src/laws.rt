//! The laws of states and steps. Each function does nothing: its contract is the law.

ghost use Rattle.std.specs.Prelude.{◌≡◌, ℕ, ◌≤◌, Bool, false, Option};
ghost use Rattle.lj_base.specs.Cells.{Triple};
ghost use Rattle.lj_base.specs.Frames.{InFrame, Top};
ghost use Rattle.lj_cover.specs.Derivations.{IsLeast};
ghost use Rattle.lj_cover.specs.Instances.{IsInstance, price};
ghost use Rattle.lj_cover.specs.Rules.{IsCovering, Rule, Upload};
ghost use Rattle.lj_relax.specs.States.{Good, State};
ghost use Rattle.lj_relax.specs.Steps.{Accepts, Agrees, Claims, IsLeastPrice, IsOld, IsRead, Publishes, Snapshot};
ghost use Rattle.lj_relax.specs.Steps.{SameOnFrame};

use lj_cover::laws::{
    bases_have_no_children, costs_are_positive, derivations_stay_inside, induced_has_instances,
    more_uploads_derive, price_by_row, price_grows, prices_are_derivable, reads_are_children,
    rows_are_of_uploads,
};

/// Rest means least: in a good state in which no cell is open each bound is the least cost of a derivation.
pub fn rest_is_least()
    ensures { (s : State) → Good s → ((c : Triple) → InFrame s.frame c → s.pending c ≡ false)
        → (c : Triple) → InFrame s.frame c → IsLeast s.frame s.uploads c (s.bounds c) }
{
    bases_have_no_children();
    derivations_stay_inside();
    price_grows();
}

/// The bounds of a good state are at least 1.
pub fn bounds_are_positive()
    ensures { (s : State) → Good s → (c : Triple) → InFrame s.frame c → 1 ≤ s.bounds c }
{
    costs_are_positive();
    derivations_stay_inside();
}

/// An accepted upload that covers keeps a state good.
pub fn accept_keeps_good()
    ensures { (s n : State) (u : Upload) → Good s → IsCovering u → InFrame s.frame u.cell → Accepts s u n → Good n }
{
    more_uploads_derive();
    reads_are_children();
}

/// A publication keeps a state good, however old the ticket is.
pub fn publish_keeps_good()
    ensures { (s n : State) (a : Snapshot) (best : Option ℕ) (lowered agreed : Bool) → Good s → IsOld s a
        → IsLeastPrice s.frame a best → Publishes s a best lowered agreed n → Good n }
{
    costs_are_positive();
    derivations_stay_inside();
    induced_has_instances();
    more_uploads_derive();
    price_by_row();
    price_grows();
    prices_are_derivable();
    reads_are_children();
    rows_are_of_uploads();
}

/// After a publication nothing is cheaper at a cell that was closed and whose bound is at most the published cell's: an
/// instance that has a cell as a child costs at least the cell's bound.
pub fn cheap_cells_stay_least()
    ensures { (s n : State) (a : Snapshot) (best : Option ℕ) (lowered agreed : Bool) → Good s → IsOld s a
        → IsLeastPrice s.frame a best → Publishes s a best lowered agreed n → (c : Triple) (r : Rule)
        → InFrame s.frame c → s.pending c ≡ false → n.bounds c ≤ n.bounds a.cell
        → IsInstance s.frame s.uploads c r → n.bounds c ≤ price n.bounds r }
{
    costs_are_positive();
    derivations_stay_inside();
    induced_has_instances();
    more_uploads_derive();
    price_by_row();
    price_grows();
    prices_are_derivable();
    reads_are_children();
    rows_are_of_uploads();
}

/// A claimed ticket agrees with its state and is old there, and it stays old in all later steps.
pub fn tickets_stay_old()
    ensures claimed { (s n : State) (a : Snapshot) → Good s → Claims s a n → IsOld n a }
    ensures agrees { (s n : State) (a : Snapshot) → Claims s a n → Agrees n a }
    ensures accepted { (s n : State) (a : Snapshot) (u : Upload) → IsOld s a → Accepts s u n → IsOld n a }
    ensures published { (s n : State) (a b : Snapshot) (best : Option ℕ) (lowered agreed : Bool) → IsOld s a
        → Publishes s b best lowered agreed n → IsOld n a }
{
    more_uploads_derive();
    rows_are_of_uploads();
}

/// No step raises a bound; a claim and a read change nothing.
pub fn bounds_do_not_rise()
    ensures accepted { (s n : State) (u : Upload) → Accepts s u n
        → (c : Triple) → InFrame s.frame c → n.bounds c ≤ s.bounds c }
    ensures published { (s n : State) (a : Snapshot) (best : Option ℕ) (lowered agreed : Bool)
        → Publishes s a best lowered agreed n → (c : Triple) → InFrame s.frame c → n.bounds c ≤ s.bounds c }
    ensures claimed { (s n : State) (a : Snapshot) → Claims s a n → n ≡ s }
    ensures read { (s n : State) (c : Triple) (bound : ℕ) → IsRead s c bound n → n ≡ s }
{}

/// A step fixes the next state: a snapshot has one least price, or none; two states to which the same accepted upload
/// leads are the same on the frame; and so are two to which a publication leads, which lower and close alike.
pub fn steps_fix_the_next_state()
    ensures price { (frame : Top) (a : Snapshot) (best other : Option ℕ) → IsLeastPrice frame a best
        → IsLeastPrice frame a other → best ≡ other }
    ensures accepted { (s m n : State) (u : Upload) → Accepts s u m → Accepts s u n → SameOnFrame m n }
    ensures published { (s m n : State) (a : Snapshot) (best : Option ℕ) (lowered lower agreed agree : Bool)
        → Publishes s a best lowered agreed m → Publishes s a best lower agree n
        → (lower ≡ lowered) × (agree ≡ agreed) × SameOnFrame m n }
{}
