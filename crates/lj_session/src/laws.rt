ghost use Rattle.std.specs.Prelude.{◌≡◌, ◌↔◌, ℕ, ◌≤◌, ◌∷◌, ◌++◌, [], List};
ghost use Rattle.std.specs.List.{AllByRecursion, Contains};
ghost use Rattle.lj_base.specs.Cells.{Triple};
ghost use Rattle.lj_base.specs.Frames.{InFrame, Top};
ghost use Rattle.lj_cover.specs.Derivations.{DerivableIn, IsLeast, root_cell, tree_cost};
ghost use Rattle.lj_cover.specs.Rules.{Condition, Rule, Upload, rule_cell, rule_cost};
ghost use Rattle.lj_cover.specs.Uses.{DerivableBy};
ghost use Rattle.lj_deriv.specs.Nodes.{Steps, plan_tree};
ghost use Rattle.lj_script.specs.Values.{SectionValue};
ghost use Rattle.lj_script.specs.declared.scripts.Command.{Command};
ghost use Rattle.lj_upload.specs.Quotas.{Held};
ghost use Rattle.lj_session.specs.AcceptedUploads.{AreAcceptedOf, AreAcceptedOfAll, IsAcceptedIn, IsAcceptedOf};
ghost use Rattle.lj_session.specs.BuildReplies.{BuildReplies};
ghost use Rattle.lj_session.specs.Driving.{IsAcceptedPlan, IsBuilding, IsLeastPlan, IsServing, SeesLeast, SeesUses};
ghost use Rattle.lj_session.specs.Offered.{IsOffered};
ghost use Rattle.lj_session.specs.Outcomes.{Outcome, UploadGives};
ghost use Rattle.lj_session.specs.ServeReplies.{IsUseOf, ServeRepliesBelow};
ghost use Rattle.lj_session.specs.Sessions.{AsksInside, GoesOn, IsAsking, Passes, SessionValue, new_session};
ghost use Rattle.lj_session.specs.Sessions.{with_bound, with_plan_for, with_settle, with_upload};
ghost use Rattle.lj_session.specs.declared.asks.Ask.{Ask};

use lj_blockfile::one_reading_law;
use lj_cover::laws::derivations_stay_inside;
use lj_verify::outcome_law;

/// An upload has one outcome at most. So a section has one list of accepted uploads at most, and so have sections.
pub fn one_outcome_law()
    ensures outcome { (f : Top) (before : Held) (command : Command) (a b : Outcome)
        → UploadGives f before command a → UploadGives f before command b → a ≡ b }
    ensures section { (f : Top) (section : SectionValue) (us vs : List Upload)
        → AreAcceptedOf f section us → AreAcceptedOf f section vs → us ≡ vs }
    ensures sections { (f : Top) (sections : List SectionValue) (us vs : List Upload)
        → AreAcceptedOfAll f sections us → AreAcceptedOfAll f sections vs → us ≡ vs }
{
    one_reading_law();
    outcome_law();
}

/// What is accepted of sections after some of their commands is what is accepted of them in the end. Each of these
/// uploads has a cell of the frame and is offered by one of the sections; and what is derivable from them is so from
/// the list, so that it is not below the least.
pub fn accepted_law()
    ensures section { (f : Top) (section : SectionValue) (us : List Upload) → AreAcceptedOf f section us
        → (u : Upload) → IsAcceptedOf f section u ↔ Contains us u }
    ensures sections { (f : Top) (sections : List SectionValue) (us : List Upload) → AreAcceptedOfAll f sections us
        → (u : Upload) → IsAcceptedIn f sections u ↔ Contains us u }
    ensures inside { (f : Top) (sections : List SectionValue) (us : List Upload) → AreAcceptedOfAll f sections us
        → AllByRecursion (λ u. InFrame f u.cell) us }
    ensures offered { (f : Top) (sections : List SectionValue) (u : Upload) → IsAcceptedIn f sections u
        → IsOffered sections u }
    ensures derivable { (f : Top) (sections : List SectionValue) (us : List Upload) → AreAcceptedOfAll f sections us
        → (c : Triple) (n : ℕ) → DerivableBy f (IsAcceptedIn f sections) c n → DerivableIn f us c n }
    ensures least { (f : Top) (sections : List SectionValue) (us : List Upload) → AreAcceptedOfAll f sections us
        → (c : Triple) (least n : ℕ) → IsLeast f us c least → DerivableBy f (IsAcceptedIn f sections) c n → least ≤ n }
{
    one_reading_law();
    outcome_law();
    derivations_stay_inside();
}

/// What a session asks is about a cell of its frame.
pub fn ask_law()
    ensures { (s : SessionValue) (ask : Ask) → IsAsking s ask → AsksInside s.frame ask }
{}

/// After the reply to what a session asks no ask waits, and one command less is left.
pub fn passing_law()
    ensures accept { (s : SessionValue) (u : Upload) → IsAsking s (Ask.Accept u) → Passes s (with_upload s u) }
    ensures bound { (s : SessionValue) (c : Triple) (b : ℕ) → IsAsking s (Ask.Bound c)
        → Passes s (with_bound s c b) }
    ensures plan { (s : SessionValue) (c : Triple) (p : Steps) → IsAsking s (Ask.Plan c)
        → Passes s (with_plan_for s s.left p) }
    ensures settle { (s : SessionValue) → IsAsking s Ask.Settle → Passes s (with_settle s) }
{}

/// How a session is served as `build` serves it: it starts, goes on over commands whose replies need no table, gets
/// what it asks for, and ends with the replies of `build` and with the accepted uploads of its section.
pub fn building_law()
    ensures start { (f : Top) (earlier : List Upload) (section : SectionValue)
        → IsBuilding f earlier section (new_session f section) }
    ensures goes_on { (f : Top) (earlier : List Upload) (section : SectionValue) (s t : SessionValue)
        → IsBuilding f earlier section s → GoesOn s t → IsBuilding f earlier section t }
    ensures accept { (f : Top) (earlier : List Upload) (section : SectionValue) (s : SessionValue) (u : Upload)
        → IsBuilding f earlier section s → IsAsking s (Ask.Accept u) → IsBuilding f earlier section (with_upload s u) }
    ensures bound { (f : Top) (earlier : List Upload) (section : SectionValue) (s : SessionValue) (c : Triple) (b : ℕ)
        → IsBuilding f earlier section s → IsAsking s (Ask.Bound c) → IsLeast f (earlier ++ s.own) c b
        → IsBuilding f earlier section (with_bound s c b) }
    ensures plan { (f : Top) (earlier : List Upload) (section : SectionValue) (s : SessionValue) (p : Steps)
        → IsBuilding f earlier section s → IsAsking s (Ask.Plan (root_cell (plan_tree p)))
        → IsLeastPlan f (earlier ++ s.own) p → IsBuilding f earlier section (with_plan_for s s.left p) }
    ensures settle { (f : Top) (earlier : List Upload) (section : SectionValue) (s : SessionValue)
        → IsBuilding f earlier section s → IsAsking s Ask.Settle → IsBuilding f earlier section (with_settle s) }
    ensures done { (f : Top) (earlier : List Upload) (section : SectionValue) (s : SessionValue)
        → IsBuilding f earlier section s → s.left ≡ []
        → BuildReplies f earlier section s.replies × AreAcceptedOf f section s.own }
{}

/// How a session is served as `serve` serves it: as in [`building_law`], where what the pass has seen may fall at any
/// time. An upload that it asks about, and each that was accepted, is accepted of its section. In the end no number
/// that the pass has seen is above the cost of a use of an accepted upload by itself.
pub fn serving_law()
    ensures start { (f : Top) (sections : List SectionValue) (section : SectionValue) (seen : Triple → ℕ)
        → IsServing f seen sections section seen (new_session f section) }
    ensures goes_on { (f : Top) (limit : Triple → ℕ) (sections : List SectionValue) (section : SectionValue)
        (seen : Triple → ℕ) (s t : SessionValue) → IsServing f limit sections section seen s → GoesOn s t
        → IsServing f limit sections section seen t }
    ensures falls { (f : Top) (limit : Triple → ℕ) (sections : List SectionValue) (section : SectionValue)
        (seen now : Triple → ℕ) (s : SessionValue) → ((c : Triple) → now c ≤ seen c)
        → IsServing f limit sections section seen s → IsServing f limit sections section now s }
    ensures asks { (f : Top) (limit : Triple → ℕ) (sections : List SectionValue) (section : SectionValue)
        (seen : Triple → ℕ) (s : SessionValue) (u : Upload) → Contains sections section
        → IsServing f limit sections section seen s → IsAsking s (Ask.Accept u) → IsAcceptedIn f sections u }
    ensures own { (f : Top) (limit : Triple → ℕ) (sections : List SectionValue) (section : SectionValue)
        (seen : Triple → ℕ) (s : SessionValue) → Contains sections section
        → IsServing f limit sections section seen s → AllByRecursion (IsAcceptedIn f sections) s.own }
    ensures accept { (f : Top) (limit : Triple → ℕ) (sections : List SectionValue) (section : SectionValue)
        (seen : Triple → ℕ) (s : SessionValue) (u : Upload) → IsServing f limit sections section seen s
        → IsAsking s (Ask.Accept u) → SeesUses seen (u ∷ [])
        → IsServing f limit sections section seen (with_upload s u) }
    ensures bound { (f : Top) (limit : Triple → ℕ) (sections : List SectionValue) (section : SectionValue)
        (seen : Triple → ℕ) (s : SessionValue) (c : Triple) (b : ℕ) → IsServing f limit sections section seen s
        → IsAsking s (Ask.Bound c) → DerivableBy f (IsAcceptedIn f sections) c b → seen c ≡ b
        → IsServing f limit sections section seen (with_bound s c b) }
    ensures plan { (f : Top) (limit : Triple → ℕ) (sections : List SectionValue) (section : SectionValue)
        (seen : Triple → ℕ) (s : SessionValue) (p : Steps) → IsServing f limit sections section seen s
        → IsAsking s (Ask.Plan (root_cell (plan_tree p))) → IsAcceptedPlan f sections p
        → seen (root_cell (plan_tree p)) ≡ tree_cost (plan_tree p)
        → IsServing f limit sections section seen (with_plan_for s s.left p) }
    ensures settle { (f : Top) (limit : Triple → ℕ) (sections : List SectionValue) (section : SectionValue)
        (seen : Triple → ℕ) (s : SessionValue) → IsServing f limit sections section seen s → IsAsking s Ask.Settle
        → SeesLeast f s.own seen → IsServing f limit sections section seen (with_settle s) }
    ensures done { (f : Top) (limit : Triple → ℕ) (sections : List SectionValue) (section : SectionValue)
        (seen : Triple → ℕ) (s : SessionValue) → IsServing f limit sections section seen s → s.left ≡ []
        → ServeRepliesBelow f limit sections section s.replies × AreAcceptedOf f section s.own }
    ensures uses { (f : Top) (limit : Triple → ℕ) (sections : List SectionValue) (section : SectionValue)
        (seen : Triple → ℕ) (s : SessionValue) → IsServing f limit sections section seen s
        → (r : Rule) → IsUseOf s.own r → Condition r → InFrame f (rule_cell r) → seen (rule_cell r) ≤ rule_cost r [] }
{}

/// Replies in which no number is above a limit are so for greater limits too.
pub fn limits_law()
    ensures { (f : Top) (low high : Triple → ℕ) (sections : List SectionValue) (section : SectionValue)
        (text : List ℕ) → ((c : Triple) → InFrame f c → low c ≤ high c)
        → ServeRepliesBelow f low sections section text → ServeRepliesBelow f high sections section text }
{}
