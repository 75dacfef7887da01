ghost use Rattle.std.specs.Prelude.{◌≡◌, ◌≢◌, ◌≤◌, ◌∷◌, [], ℕ, IfOk, OnOk};
ghost use Rattle.std.specs.List.{AllByRecursion};
ghost use Rattle.lj_base.specs.Cells.{Triple};
ghost use Rattle.lj_base.specs.Frames.{InFrame};
ghost use Rattle.lj_board.specs.Seen.{NoneRises, seen_of};
ghost use Rattle.lj_cover.specs.Rules.{Upload};
ghost use Rattle.lj_script.specs.Values.{SectionValue};
ghost use Rattle.lj_session.specs.AcceptedUploads.{IsAcceptedIn};
ghost use Rattle.lj_session.specs.Driving.{IsServing};
ghost use Rattle.lj_session.specs.Sessions.{IsAsking, IsNext, Passes, asked_cell, asked_upload};
ghost use Rattle.lj_gate.specs.Ends.{IsEnd, IsOfRun};

use crate::serving::{Accepting, Serving};
use lj_base::Memory;
use lj_board::Pass;
use lj_session::{Ask, Session, SessionEnd, ask_law, passing_law, serving_law};
use lj_shared::Shared;
use std::alloc::Global;
use std::sync::Wait;
use std::thread::Threads;

// Serves a session to its end.
pub(crate) fn serve_session<S: Serving, R: Threads + Wait + Sync>(
    rt: &R,
    alloc: Global,
    shared: &Shared<Accepting<S>>,
    pass: &mut Pass,
    mut session: Session,
) -> Result<SessionEnd, Memory>
    requires pass { pass.old.board ≡ shared.now }
    requires session { IsOfRun S.frame S.sections session }
    ensures end { IfOk result (IsEnd S.frame S.sections session pass.old pass.new) }
    ensures falls { NoneRises pass.old pass.new }
{
    serving_law();
    drive(rt, alloc, shared, pass, &mut session)?;
    Ok(session.finish())
}

// Goes through the commands of a session that is new.
fn drive<S: Serving, R: Threads + Wait + Sync>(
    rt: &R,
    alloc: Global,
    shared: &Shared<Accepting<S>>,
    pass: &mut Pass,
    session: &mut Session,
) -> Result<(), Memory>
    requires pass { pass.old.board ≡ shared.now }
    requires session { IsOfRun S.frame S.sections session.old }
    ensures serving { OnOk result (IsServing S.frame (seen_of pass.old) S.sections session.old.section
        (seen_of pass.new) session.new) }
    ensures done { OnOk result (session.new.left ≡ []) }
    ensures falls { NoneRises pass.old pass.new }
{
    serving_law();
    loop {
        match session.step(rt, alloc)? {
            Ask::Done => return Ok(()),
            ask => give(rt, alloc, shared, pass, session, ask)?,
        }
    }
}

// Gives a session what it asks for.
fn give<S: Serving, R: Wait>(
    rt: &R,
    alloc: Global,
    shared: &Shared<Accepting<S>>,
    pass: &mut Pass,
    session: &mut Session,
    ask: Ask,
) -> Result<(), Memory>
    requires pass { pass.old.board ≡ shared.now }
    requires frame { session.old.frame ≡ S.frame }
    requires waits { session.old.ask ≡ ask }
    requires next { IsNext session.old ask }
    requires goes_on { ask ≢ Ask.Done }
    requires asks { (u : Upload) → IsAsking session.old (Ask.Accept u) → IsAcceptedIn S.frame S.sections u }
    requires own { AllByRecursion (IsAcceptedIn S.frame S.sections) session.old.own }
    ensures serving { (limit : Triple → ℕ) (section : SectionValue)
        → IsServing S.frame limit S.sections section (seen_of pass.old) session.old
        → OnOk result (IsServing S.frame limit S.sections section (seen_of pass.new) session.new) }
    ensures passes { OnOk result (Passes session.old session.new) }
    ensures falls { NoneRises pass.old pass.new }
{
    ask_law();
    passing_law();
    serving_law();
    match ask {
        Ask::Accept { up } => {
            shared.accept(rt, pass, up)?;
            session.told_accept()
        }
        Ask::Bound { cell } => {
            let b = shared.bound(pass, cell);
            session.told_bound(b)
        }
        Ask::Plan { cell } => {
            let plan = shared.plan(rt, alloc, pass, cell)?;
            session.told_plan(alloc, plan)
        }
        Ask::Settle => {
            shared.settle(rt, alloc, pass, session.own())?;
            session.told_settle()
        }
        Ask::Done => unreachable!(),
    }
}
