ghost use Rattle.std.specs.Prelude.{◌≡◌, ◌≢◌, [], IfOk, OnOk};
ghost use Rattle.lj_cover.specs.Derivations.{root_cell};
ghost use Rattle.lj_deriv.specs.Nodes.{plan_tree};
ghost use Rattle.lj_session.specs.Sessions.{IsNext};
ghost use Rattle.lj_session.specs.declared.asks.Ask.{Ask};

use lj_base::Cell;
use lj_deriv::{Arena, Plan};
use lj_script::{MAX_COMMANDS, Script, read_script};
use lj_session::{Ask, Session, SessionEnd, passing_law};
use lj_upload::Accepted;
use std::alloc::Global;
use std::test::Fail;
use std::thread::Threads;

pub fn script_of(alloc: Global, text: &[u8]) -> Result<Script, Fail> {
    match read_script(alloc, text) {
        Ok(script) => Ok(script),
        Err(_) => Err("no script".into()),
    }
}

/// The replies of each client of a script, one after the other. Each bound is 2, and plans are those of the arena's
/// nodes.
pub fn replies_to<R: Threads + Sync>(
    rt: &R,
    alloc: Global,
    arena: &Arena,
    text: &[u8],
) -> Result<Vec<u8>, Fail> {
    let Script { frame, clients } = script_of(alloc, text)?;
    let mut replies = Vec::new(alloc);
    for section in clients.into_vec() {
        let session = Session::start(alloc, frame, section, 1)?;
        let end = end_of(rt, alloc, arena, session)?;
        replies.extend_from_slice(end.replies.items())?;
    }
    Ok(replies)
}

// The end of a session that is new. It has the uploads that it asked about, and no others.
fn end_of<R: Threads + Sync>(
    rt: &R,
    alloc: Global,
    arena: &Arena,
    mut session: Session,
) -> Result<SessionEnd, Fail>
    requires { session.ask ≡ Ask.Done }
{
    let mut asked = Vec::new(alloc);
    drive(rt, alloc, arena, &mut session, &mut asked)?;
    if !are_those(session.own(), &asked) {
        return Err("other uploads".into());
    }
    let end = session.finish();
    if !are_those(end.accepted.items(), &asked) {
        return Err("other uploads at the end".into());
    }
    Ok(end)
}

// Whether these are the uploads that were asked about, in order, and their ordinals count from 1.
fn are_those(uploads: &[Accepted], asked: &[Accepted]) -> bool {
    let mut next = 1;
    for (upload, other) in uploads.iter().zip(asked) {
        if upload.ordinal() != next || !upload.same(other) {
            return false;
        }
        next = next.saturating_add(1);
    }
    uploads.len() == asked.len()
}

// Gives a session what it asks for, up to its end, and keeps the uploads that it asks about.
fn drive<R: Threads + Sync>(
    rt: &R,
    alloc: Global,
    arena: &Arena,
    session: &mut Session,
    asked: &mut Vec<Accepted>,
) -> Result<(), Fail>
    requires { session.old.ask ≡ Ask.Done }
    ensures { OnOk result (session.new.left ≡ []) }
{
    for _ in 0..MAX_COMMANDS + 1 {
        match session.step(rt, alloc)? {
            Ask::Done => return Ok(()),
            ask => give(alloc, arena, session, ask, asked)?,
        }
    }
    Err("more asks than commands".into())
}

// Gives a session what it asks for, and keeps the upload that it asks about.
fn give(
    alloc: Global,
    arena: &Arena,
    session: &mut Session,
    ask: Ask,
    asked: &mut Vec<Accepted>,
) -> Result<(), Fail>
    requires waits { session.old.ask ≡ ask }
    requires next { IsNext session.old ask }
    requires goes_on { ask ≢ Ask.Done }
    ensures { OnOk result (session.new.ask ≡ Ask.Done) }
{
    passing_law();
    match ask {
        Ask::Accept { up } => {
            session.told_accept()?;
            asked.push(up)?;
        }
        Ask::Bound { .. } => session.told_bound(2)?,
        Ask::Plan { cell } => {
            let plan = plan_for(alloc, arena, cell)?;
            session.told_plan(alloc, plan)?;
        }
        Ask::Settle => session.told_settle()?,
        Ask::Done => unreachable!(),
    }
    Ok(())
}

// The plan of the first node of this cell.
fn plan_for(alloc: Global, arena: &Arena, cell: Cell) -> Result<Plan, Fail>
    ensures { IfOk result (λ plan. root_cell (plan_tree plan) ≡ cell) }
{
    for i in 0..arena.len() {
        if arena.cell(i) == cell {
            let plan = arena.plan(alloc, i)?;
            if plan.cell() == cell {
                return Ok(plan);
            }
        }
    }
    Err("no plan".into())
}
