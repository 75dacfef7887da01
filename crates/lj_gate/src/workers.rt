ghost use Rattle.std.specs.Prelude.{◌≡◌, ◌≤◌, [], IsOk, List, OnOk, length, vec_capacity, vec_len};
ghost use Rattle.std.specs.List.{All, AllByRecursion};
ghost use Rattle.lj_board.specs.Seen.{BoardView, NoneRises, PassView};
ghost use Rattle.lj_shared.specs.Passes.{AtMostEach};
ghost use Rattle.lj_gate.specs.Ends.{IsWorker};
ghost use Rattle.lj_gate.specs.Started.{AreWorking, IsWorking, WorksOnBoard};

use crate::gates::Gate;
use crate::serving::{Accepting, Serving};
use lj_base::Memory;
use lj_board::Pass;
use lj_shared::{Shared, Worked};
use std::alloc::Global;
use std::marker::PhantomData;
use std::snapshot::Snapshot;
use std::sync::Wait;
use std::thread::{Promise, PromisedHandle, Scope, Threads};

/// What a worker leaves.
#[derive(Drop)]
pub struct Worker {
    pub pass: Pass,
    pub end: Result<(), Memory>,
}

/// What is promised of a worker's thread: that it leaves what the worker with this pass leaves.
#[derive(Drop)]
pub struct Works<S> {
    pass: Snapshot<Pass>,
    serving: PhantomData<S>,
}

impl<S: Serving> Promise<Worker> for Works<S> {
    ghost use Rattle.lj_gate.specs.Ends.{IsWorker};

    ghost kept_by = { λ p w. IsWorker S.frame p.pass.value w };
}

/// A worker whose thread runs, or which ran here where no thread could be started.
#[derive(Drop)]
pub enum Working<S: Serving> {
    There(PromisedHandle<Worker, Works<S>>),
    Here(Worker),
}

// A worker from start to end.
pub(crate) fn run_worker<S: Serving, R: Wait, G: Gate>(
    rt: &R,
    alloc: Global,
    shared: &Shared<Accepting<S>>,
    gate: &G,
    number: u64,
    mut pass: Pass,
) -> Worker
    requires { pass.board ≡ shared.now }
    ensures { IsWorker S.frame pass result }
{
    let end = work(rt, alloc, shared, gate, number, &mut pass);
    Worker { pass, end }
}

// Takes turns until there is none for good.
fn work<S: Serving, R: Wait, G: Gate>(
    rt: &R,
    alloc: Global,
    shared: &Shared<Accepting<S>>,
    gate: &G,
    number: u64,
    pass: &mut Pass,
) -> Result<(), Memory>
    requires { pass.old.board ≡ shared.now }
    ensures least { OnOk result (AtMostEach S.frame [] pass.new) }
    ensures falls { NoneRises pass.old pass.new }
{
    let mut ticket = shared.ticket(rt, alloc)?;
    let mut turn: u64 = 1;
    for _ in rt.forever() {
        gate.before(number, turn);
        let worked = shared.work_one(rt, pass, ticket);
        gate.after(number, turn);
        match worked? {
            Worked::Turn { ticket: back } => ticket = back,
            Worked::Ended => return Ok(()),
        }
        turn = turn.saturating_add(1);
    }
    unreachable!()
}

fn start<'s, E, S: Serving + Send + Sync, R: Threads + Wait + Sync, G: Gate + Sync>(
    scope: &Scope<'s, E>,
    rt: &'s R,
    alloc: Global,
    shared: &'s Shared<Accepting<S>>,
    gate: &'s G,
    number: u64,
    pass: Pass,
) -> Working<S>
    requires { pass.board ≡ shared.now }
    ensures pass { IsWorking S.frame pass result }
    ensures board { WorksOnBoard shared.now result }
{
    let promise = Works {
        pass: Snapshot::of(&pass),
        serving: PhantomData,
    };
    let work = move || -> Worker
        requires { pass.board ≡ shared.now }
        ensures { IsWorker S.frame pass result }
    { run_worker(rt, alloc, shared, gate, number, pass) };
    match scope.spawn_with(promise, work) {
        Ok(child) => Working::There(child),
        Err(refused) => Working::Here((refused.value)()),
    }
}

// Starts a worker for each pass, numbered from 2. The list has room for them.
pub(crate) fn start_workers<
    's,
    E,
    S: Serving + Send + Sync,
    R: Threads + Wait + Sync,
    G: Gate + Sync,
>(
    scope: &Scope<'s, E>,
    rt: &'s R,
    alloc: Global,
    shared: &'s Shared<Accepting<S>>,
    gate: &'s G,
    passes: Vec<Pass>,
    mut working: Vec<Working<S>>,
) -> Vec<Working<S>>
    requires passes { All (λ p. p.board ≡ shared.now) passes.items }
    requires none { working.items ≡ [] }
    requires count { vec_len working ≡ 0 }
    requires room { length passes.items ≤ vec_capacity working }
    ensures passes { AreWorking S.frame passes.items result.items }
    ensures boards { All (WorksOnBoard shared.now) result.items }
{
    let mut number: u64 = 2;
    for pass in passes {
        working.push_reserved(start(scope, rt, alloc, shared, gate, number, pass));
        number = number.saturating_add(1);
    }
    working
}

fn finish<S: Serving, R: Threads>(rt: &R, working: Working<S>) -> Worker
    ensures worker { (p : PassView) → IsWorking S.frame p working → IsWorker S.frame p result }
    ensures board { (b : BoardView) → WorksOnBoard b working → result.pass.board ≡ b }
{
    match working {
        Working::There(child) => child.join(rt),
        Working::Here(worker) => worker,
    }
}

// Joins the workers' threads, and joins their passes to the one given. It fails where one of them ran out of memory,
// after all have been joined.
pub(crate) fn finish_workers<S: Serving, R: Threads>(
    rt: &R,
    shared: &Shared<Accepting<S>>,
    working: Vec<Working<S>>,
    pass: &mut Pass,
) -> Result<(), Memory>
    requires pass { pass.old.board ≡ shared.now }
    requires boards { All (WorksOnBoard shared.now) working.items }
    ensures joined { (ps : List PassView) → AreWorking S.frame ps working.items
        → AllByRecursion (λ p. NoneRises p pass.new) ps }
    ensures falls { NoneRises pass.old pass.new }
{
    let mut all = Ok(());
    for one in working {
        let Worker { pass: other, end } = finish(rt, one);
        pass.join(shared.board(), other);
        all = both(all, end);
    }
    all
}

fn both(first: Result<(), Memory>, second: Result<(), Memory>) -> Result<(), Memory>
    ensures { OnOk result (IsOk first × IsOk second) }
{
    first?;
    second
}
