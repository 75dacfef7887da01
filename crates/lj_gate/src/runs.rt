ghost use Rattle.std.specs.Prelude.{◌≡◌, ◌+◌, ◌<◌, ◌≤◌, IfOk, IsOk, MatchResult, length, map};
ghost use Rattle.std.specs.List.{AllByRecursion};
ghost use Rattle.lj_gate.specs.Ends.{AreServed, IsJoined, IsOfRun};
ghost use Rattle.lj_gate.specs.Prepared.{IsPrepared, IsReady, IsRun};

use crate::clients::{Job, Started, finish_clients, start_clients};
use crate::gates::Gate;
use crate::serving::{Accepting, Serving};
use crate::workers::{Worker, Working, finish_workers, run_worker, start_workers};
use lj_base::Memory;
use lj_board::Pass;
use lj_build::Ends;
use lj_session::{Session, SessionEnd};
use lj_shared::Shared;
use lj_verify::MAX_WORKERS;
use std::alloc::Global;
use std::sync::Wait;
use std::thread;
use std::thread::{Scope, Threads};

/// The ends of the sessions, in the order of the sessions, and all passes joined.
#[derive(Drop)]
pub struct Ran {
    pub ends: Ends,
    pub pass: Pass,
}

/// What a run needs before its threads start: all the memory that it takes itself.
#[derive(Drop)]
pub struct Prepared<S: Serving> {
    pub jobs: Vec<Job>,
    pub started: Vec<Started<S>>,
    pub ends: Vec<SessionEnd>,
    pub first: Pass,
    pub others: Vec<Pass>,
    pub working: Vec<Working<S>>,
}

/// Serves the sessions over one shared table, each as a client in a thread of its own, while as many workers as are
/// given improve the table. The clients' threads are started first, then those of the workers from the second on, and
/// the caller is the first worker. Where no thread can be started, the caller does its work. It returns once all
/// threads have. Each client leaves at its end, also where memory runs out; then what was done on the table stays.
///
/// There is a pass for each session, in their order, and then one for each worker.
pub fn run<S: Serving + Send + Sync, R: Threads + Wait + Sync, G: Gate + Sync>(
    rt: &R,
    alloc: Global,
    shared: &Shared<Accepting<S>>,
    sessions: Vec<Session>,
    passes: Vec<Pass>,
    workers: u64,
    gate: &G,
) -> Result<Ran, Memory>
    requires some_workers { 1 ≤ workers }
    requires few_workers { workers ≤ MAX_WORKERS }
    requires sessions { AllByRecursion (IsOfRun S.frame S.sections) sessions.items }
    requires count { length passes.items ≡ length sessions.items + workers }
    requires passes { AllByRecursion (λ p. p.board ≡ shared.now) passes.items }
    ensures ends { IfOk result (λ ran. AreServed S.frame S.sections sessions.items passes.items ran.ends) }
    ensures pass { IfOk result (λ ran. IsJoined S.frame passes.items ran.ends shared.now ran.pass) }
{
    let clients = sessions.len();
    match prepare(alloc, sessions, passes) {
        Ok(prepared) => run_scoped(rt, alloc, shared, prepared, gate),
        Err(e) => {
            for _ in 0..clients {
                shared.leave(rt);
            }
            Err(e)
        }
    }
}

// Puts each session together with its pass, and makes room for the threads. The last pass is the first worker's.
fn prepare<S: Serving>(
    alloc: Global,
    sessions: Vec<Session>,
    mut passes: Vec<Pass>,
) -> Result<Prepared<S>, Memory>
    requires { length sessions.items < length passes.items }
    ensures { IfOk result (IsPrepared sessions.items passes.items) }
{
    let mut others = passes.split_off(sessions.len())?;
    let Some(first) = others.pop() else {
        unreachable!()
    };
    let jobs = pair_up(alloc, sessions, passes)?;
    let started = Vec::with_capacity(alloc, jobs.len())?;
    let ends = Vec::with_capacity(alloc, jobs.len())?;
    let working = Vec::with_capacity(alloc, others.len())?;
    Ok(Prepared {
        jobs,
        started,
        ends,
        first,
        others,
        working,
    })
}

// Each session with its pass.
fn pair_up(alloc: Global, sessions: Vec<Session>, passes: Vec<Pass>) -> Result<Vec<Job>, Memory>
    requires { length passes.items ≡ length sessions.items }
    ensures sessions { IfOk result (λ jobs. map (λ j. j.session) jobs.items ≡ sessions.items) }
    ensures passes { IfOk result (λ jobs. map (λ j. j.pass) jobs.items ≡ passes.items) }
{
    let mut jobs = Vec::with_capacity(alloc, sessions.len())?;
    for (session, pass) in sessions.into_iter().zip(passes) {
        jobs.push(Job { session, pass })?;
    }
    Ok(jobs)
}

fn run_scoped<S: Serving + Send + Sync, R: Threads + Wait + Sync, G: Gate + Sync>(
    rt: &R,
    alloc: Global,
    shared: &Shared<Accepting<S>>,
    prepared: Prepared<S>,
    gate: &G,
) -> Result<Ran, Memory>
    requires ready { IsReady S.frame S.sections shared.now prepared }
    ensures { IfOk result (IsRun S.frame S.sections shared.now prepared) }
{
    thread::scope(
        thread::scope_env(),
        rt,
        |scope| -> Result<Ran, Memory>
            requires { IsReady S.frame S.sections shared.now prepared }
            ensures { IfOk result (IsRun S.frame S.sections shared.entry.now prepared) }
        { run_in(scope, rt, alloc, shared, prepared, gate) },
    )
}

// Starts the threads, works as the first worker, and joins the threads and their passes.
fn run_in<'s, E, S: Serving + Send + Sync, R: Threads + Wait + Sync, G: Gate + Sync>(
    scope: &Scope<'s, E>,
    rt: &'s R,
    alloc: Global,
    shared: &'s Shared<Accepting<S>>,
    prepared: Prepared<S>,
    gate: &'s G,
) -> Result<Ran, Memory>
    requires { IsReady S.frame S.sections shared.now prepared }
    ensures { IfOk result (IsRun S.frame S.sections shared.now prepared) }
{
    let Prepared {
        jobs,
        started,
        ends,
        first,
        others,
        working,
    } = prepared;
    let started = start_clients(scope, rt, alloc, shared, jobs, started);
    let working = start_workers(scope, rt, alloc, shared, gate, others, working);
    let Worker { mut pass, end } = run_worker(rt, alloc, shared, gate, 1, first);
    let ends = finish_clients(rt, shared, started, ends, &mut pass);
    let worked = finish_workers(rt, shared, working, &mut pass);
    ran_of(end, worked, ends, pass)
}

// What a run comes to, where no thread ran out of memory.
fn ran_of(
    end: Result<(), Memory>,
    worked: Result<(), Memory>,
    ends: Result<Ends, Memory>,
    pass: Pass,
) -> Result<Ran, Memory>
    ensures { IfOk result (λ ran. IsOk end × MatchResult ends (λ es. ran.ends ≡ es) (λ _. ⊥) × (ran.pass ≡ pass)) }
{
    end?;
    worked?;
    let ends = ends?;
    Ok(Ran { ends, pass })
}
