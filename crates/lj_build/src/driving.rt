ghost use Rattle.std.specs.Prelude.{◌≡◌, ◌≢◌, ◌+◌, ◌<◌, ◌≤◌, ◌++◌, [], List, IfOk, OnOk, length};
ghost use Rattle.lj_cover.specs.Rules.{Upload};
ghost use Rattle.lj_script.specs.Values.{SectionValue};
ghost use Rattle.lj_session.specs.Sessions.{IsNext, new_session};
ghost use Rattle.lj_build.specs.Building.{Builds, GoesOnBuilding, IsSectionBuilt, Rests};

use lj_base::{Frame, Memory};
use lj_deriv::MAX_ARENA_UPLOADS;
use lj_script::Section;
use lj_session::{Ask, Session, SessionEnd, ask_law, building_law};
use lj_table::Table;
use lj_upload::QUOTA_UPLOADS;
use std::alloc::Global;
use std::thread::Threads;

// Drives one section over a table at rest, and leaves the table at rest.
pub(crate) fn build_section<R: Threads + Sync>(
    rt: &R,
    alloc: Global,
    frame: Frame,
    section: Section,
    table: &mut Table,
) -> Result<SessionEnd, Memory>
    requires rests { Rests frame table.old.arena.uploads table.old }
    requires room { length table.old.arena.uploads + QUOTA_UPLOADS < MAX_ARENA_UPLOADS }
    ensures { IfOk result (IsSectionBuilt frame table.old.arena.uploads section table.new) }
{
    building_law();
    let mut session = Session::start(alloc, frame, section, 1)?;
    drive(rt, alloc, table, &mut session)?;
    Ok(session.finish())
}

// Goes through the commands of a session that is new.
fn drive<R: Threads + Sync>(
    rt: &R,
    alloc: Global,
    table: &mut Table,
    session: &mut Session,
) -> Result<(), Memory>
    requires start { session.old ≡ new_session session.old.frame session.old.section }
    requires rests { Rests session.old.frame table.old.arena.uploads table.old }
    requires room { length table.old.arena.uploads + QUOTA_UPLOADS < MAX_ARENA_UPLOADS }
    ensures builds { OnOk result
        (Builds session.old.frame table.old.arena.uploads session.old.section table.new session.new) }
    ensures done { OnOk result (session.new.left ≡ []) }
{
    building_law();
    loop {
        match session.step(rt, alloc)? {
            Ask::Done => return Ok(()),
            ask => give(alloc, table, session, ask)?,
        }
    }
}

// Gives a session what it asks for.
fn give(alloc: Global, table: &mut Table, session: &mut Session, ask: Ask) -> Result<(), Memory>
    requires waits { session.old.ask ≡ ask }
    requires next { IsNext session.old ask }
    requires goes_on { ask ≢ Ask.Done }
    requires frame { table.old.arena.frame ≡ session.old.frame }
    requires room { length table.old.arena.uploads < MAX_ARENA_UPLOADS }
    ensures { (earlier : List Upload) (section : SectionValue)
        → Builds session.old.frame earlier section table.old session.old
        → OnOk result (GoesOnBuilding session.old.frame earlier section table.new session.old session.new) }
{
    ask_law();
    building_law();
    match ask {
        Ask::Accept { up } => {
            table.accept(up)?;
            table.settle(alloc)?;
            session.told_accept()
        }
        Ask::Bound { cell } => {
            let b = table.bound(cell);
            session.told_bound(b)
        }
        Ask::Plan { cell } => {
            let plan = table.plan(alloc, cell)?;
            session.told_plan(alloc, plan)
        }
        Ask::Settle => session.told_settle(),
        Ask::Done => unreachable!(),
    }
}
