//! The laws of runs. Each function does nothing: its contract is the law.

ghost use Rattle.std.specs.Prelude.{◌≡◌, ℕ, ◌≤◌, ◌++◌, List};
ghost use Rattle.lj_base.specs.Cells.{Triple};
ghost use Rattle.lj_base.specs.Frames.{InFrame, Top};
ghost use Rattle.lj_relax.specs.States.{Good};
ghost use Rattle.lj_core.specs.Machines.{AreOld, Machine};
ghost use Rattle.lj_core.specs.Replays.{IsSoFar};
ghost use Rattle.lj_core.specs.Runs.{AreReads, AreSound, IsRun, accepted_by, readings};
ghost use Rattle.lj_core.specs.Sameness.{SameMachine};
ghost use Rattle.lj_core.specs.declared.events.Event.{Event};

use lj_base::index_law;
use lj_cover::laws::{larger_cuts_have_children, rows_are_of_uploads, rows_count_blocks};
use lj_relax::laws::{
    accept_keeps_good, bounds_do_not_rise, publish_keeps_good, steps_fix_the_next_state,
    tickets_stay_old,
};

/// A run keeps the frame, appends the uploads that it accepts in their order, and raises no bound.
pub fn runs_add_uploads()
    ensures frame { (s n : Machine) (es : List Event) (reads : List ℕ) → IsRun s es reads n
        → n.state.frame ≡ s.state.frame }
    ensures uploads { (s n : Machine) (es : List Event) (reads : List ℕ) → IsRun s es reads n
        → n.state.uploads ≡ s.state.uploads ++ accepted_by es }
    ensures falls { (s n : Machine) (es : List Event) (reads : List ℕ) → IsRun s es reads n
        → (c : Triple) → InFrame s.state.frame c → n.state.bounds c ≤ s.state.bounds c }
{
    bounds_do_not_rise();
}

/// A run keeps a state good and the tickets old, however long a ticket is kept.
pub fn runs_keep_good()
    ensures good { (s n : Machine) (es : List Event) (reads : List ℕ) → Good s.state → AreOld s
        → AreSound s.state.frame (accepted_by es) → IsRun s es reads n → Good n.state }
    ensures tickets { (s n : Machine) (es : List Event) (reads : List ℕ) → Good s.state → AreOld s
        → AreSound s.state.frame (accepted_by es) → IsRun s es reads n → AreOld n }
{
    accept_keeps_good();
    publish_keeps_good();
    tickets_stay_old();
}

/// What is read is the cost of a derivation from the uploads that were accepted before, and no later read of a cell is
/// higher.
pub fn reads_are_bounds()
    ensures { (s n : Machine) (es : List Event) (reads : List ℕ) → Good s.state → AreOld s
        → AreSound s.state.frame (accepted_by es) → IsRun s es reads n
        → AreReads s.state.frame (readings s.state.uploads es) reads }
{
    accept_keeps_good();
    bounds_do_not_rise();
    publish_keeps_good();
    tickets_stay_old();
}

/// A run is one: from machines that are the same on the frame the same events read the same, and lead to machines that
/// are the same on the frame.
pub fn runs_are_one()
    ensures { (s t n k : Machine) (es : List Event) (reads others : List ℕ) → Good s.state → AreOld s
        → AreSound s.state.frame (accepted_by es) → SameMachine s t → IsRun s es reads n → IsRun t es others k
        → (others ≡ reads) × SameMachine n k }
{
    accept_keeps_good();
    index_law();
    larger_cuts_have_children();
    publish_keeps_good();
    rows_are_of_uploads();
    rows_count_blocks();
    steps_fix_the_next_state();
    tickets_stay_old();
}

/// So two replays of the same events read the same, and end with the same bounds, open cells, taken cells and tickets.
pub fn replays_are_one()
    ensures { (frame : Top) (es : List Event) (reads others : List ℕ) (n k : Machine)
        → AreSound frame (accepted_by es) → IsSoFar frame es reads n → IsSoFar frame es others k
        → (others ≡ reads) × SameMachine n k }
{
    runs_are_one();
}
