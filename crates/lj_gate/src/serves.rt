ghost use Rattle.std.specs.Prelude.{◌≡◌, ◌<◌, ◌≤◌, [], IfOk, length, map, true};
ghost use Rattle.std.specs.List.{AllByRecursion};
ghost use Rattle.lj_base.specs.Frames.{InFrame};
ghost use Rattle.lj_build.specs.Closing.{IsClosed};
ghost use Rattle.lj_build.specs.Runs.{uploads_of};
ghost use Rattle.lj_session.specs.Sessions.{new_session};
ghost use Rattle.lj_gate.specs.Whole.{IsSmall, IsWholeServed};

use crate::gates::Gate;
use crate::runs::{Ran, run};
use crate::serving::{Accepting, Serving};
use lj_base::{Frame, Memory};
use lj_board::{Board, Pass};
use lj_build::{Closed, Ends, close};
use lj_deriv::MAX_ARENA_UPLOADS;
use lj_history::History;
use lj_script::{Script, Section};
use lj_session::{Session, accepted_law, limits_law};
use lj_shared::Shared;
use lj_table::Table;
use lj_verify::MAX_WORKERS;
use std::alloc::Global;
use std::marker::Brand;
use std::sync::Wait;
use std::thread::Threads;

/// The ends of the sections, in order, and the table with which the run was closed.
#[derive(Drop)]
pub struct Served {
    pub ends: Ends,
    pub closed: Closed,
}

/// Serves the sections of a script over one shared table, each as a client of its own, with as many workers as are
/// given. Each check uses as many threads as there are workers for each client, but at least one. The table that it
/// ends with is at rest over all accepted uploads.
pub fn serve<R: Threads + Wait + Sync, G: Gate + Sync>(
    rt: &R,
    alloc: Global,
    script: Script,
    workers: u64,
    gate: &G,
) -> Result<Served, Memory>
    requires some_workers { 1 ≤ workers }
    requires few_workers { workers ≤ MAX_WORKERS }
    ensures { IfOk result (λ served. IsWholeServed script served.ends served.closed) }
{
    let history = History::start(alloc)?;
    serve_named::<Brand, R, G>(rt, alloc, script, workers, gate, history)
}

// Serves a script by whose frame and sections, and by whose history, the run is named.
fn serve_named<S: Serving + Send + Sync, R: Threads + Wait + Sync, G: Gate + Sync>(
    rt: &R,
    alloc: Global,
    script: Script,
    workers: u64,
    gate: &G,
    history: History,
) -> Result<Served, Memory>
    requires frame { S.frame ≡ script.frame }
    requires sections { S.sections ≡ script.clients }
    requires named { history.history ≡ S.history }
    requires new { history.changes ≡ [] }
    requires some_workers { 1 ≤ workers }
    requires few_workers { workers ≤ MAX_WORKERS }
    ensures { IfOk result (λ served. IsWholeServed script served.ends served.closed) }
{
    accepted_law();
    limits_law();
    let clients = script.sections().len() as u64;
    let Script {
        frame,
        clients: sections,
    } = script;
    let (shared, pass) = Shared::<Accepting<S>>::start(alloc, frame, clients, history)?;
    let passes = split_all(alloc, shared.board(), pass, clients + workers)?;
    let threads = threads_of_each(workers, clients);
    let sessions = start_all(alloc, frame, sections.into_vec(), threads)?;
    let Ran { ends, pass: _ } = run(rt, alloc, &shared, sessions, passes, workers, gate)?;
    close_run(alloc, frame, shared.finish(), ends)
}

// How many threads each check uses, where all clients may check at once.
fn threads_of_each(workers: u64, clients: u64) -> u64
    requires some_workers { 1 ≤ workers }
    requires few_workers { workers ≤ MAX_WORKERS }
    ensures some { 1 ≤ result }
    ensures few { result ≤ MAX_WORKERS }
{
    (workers / clients.max(1)).max(1)
}

fn close_run(alloc: Global, frame: Frame, table: Table, ends: Ends) -> Result<Served, Memory>
    requires inside { AllByRecursion (λ u. InFrame frame u.cell) (uploads_of ends) }
    requires few { length (uploads_of ends) < MAX_ARENA_UPLOADS }
    ensures { IfOk result (λ served. (served.ends ≡ ends) × IsClosed frame (uploads_of ends) served.closed.table
        × (served.closed.rebuilt ≡ true → served.closed.table.arena.uploads ≡ uploads_of ends)) }
{
    let closed = close(alloc, frame, table, ends.items())?;
    Ok(Served { ends, closed })
}

// As many passes as are asked for, each of which has seen what this one has.
fn split_all<S: Serving>(
    alloc: Global,
    board: &Board<Accepting<S>>,
    pass: Pass,
    count: u64,
) -> Result<Vec<Pass>, Memory>
    requires { IsSmall S.frame board.now pass }
    ensures count { IfOk result (λ passes. length passes.items ≡ count) }
    ensures passes { IfOk result (λ passes. AllByRecursion (IsSmall S.frame board.now) passes.items) }
{
    let mut pass = pass;
    let mut passes = Vec::with_capacity(alloc, count as usize)?;
    for _ in 0..count {
        let other = pass.split(board);
        passes.push(other)?;
    }
    Ok(passes)
}

// A new session for each section, in order, whose checks use so many threads.
fn start_all(
    alloc: Global,
    frame: Frame,
    sections: Vec<Section>,
    threads: u64,
) -> Result<Vec<Session>, Memory>
    requires some_threads { 1 ≤ threads }
    requires few_threads { threads ≤ MAX_WORKERS }
    ensures { IfOk result (λ sessions. sessions.items ≡ map (new_session frame) sections.items) }
{
    let mut sessions = Vec::with_capacity(alloc, sections.len())?;
    for section in sections {
        sessions.push(Session::start(alloc, frame, section, threads)?)?;
    }
    Ok(sessions)
}
