ghost use Rattle.std.specs.Prelude.{◌≡◌, ◌+◌, ◌<◌, ◌≤◌, ◌∷◌, ◌++◌, [], false, List, length};
ghost use Rattle.std.specs.Prelude.{IfOk, MatchResult, vec_capacity, vec_len};
ghost use Rattle.std.specs.List.{All};
ghost use Rattle.lj_board.specs.Seen.{BoardView, NoneRises};
ghost use Rattle.lj_gate.specs.Ends.{IsClient};
ghost use Rattle.lj_gate.specs.Started.{AreGathered, AreJobs, AreStarted, IsFinished, IsJob, IsOnBoard, IsStarted};
ghost use Rattle.lj_gate.specs.declared.clients.Job.{Job};

use crate::driving::serve_session;
use crate::serving::{Accepting, Serving};
use lj_base::Memory;
use lj_board::Pass;
use lj_build::Ends;
use lj_session::{Session, SessionEnd};
use lj_shared::Shared;
use std::alloc::Global;
use std::marker::PhantomData;
use std::snapshot::Snapshot;
use std::sync::Wait;
use std::thread::{Promise, PromisedHandle, Scope, Threads};

/// A session, and the pass through which its client reads.
#[derive(Drop)]
pub struct Job {
    pub session: Session,
    pub pass: Pass,
}

/// What a client leaves.
#[derive(Drop)]
pub struct Client {
    pub pass: Pass,
    pub end: Result<SessionEnd, Memory>,
}

/// What is promised of a client's thread: that it leaves what the client of this job leaves.
#[derive(Drop)]
pub struct Serves<S> {
    job: Snapshot<Job>,
    serving: PhantomData<S>,
}

impl<S: Serving> Promise<Client> for Serves<S> {
    ghost use Rattle.lj_gate.specs.Ends.{IsClient};

    ghost kept_by = { λ p c. IsClient S.frame S.sections p.job.value.session p.job.value.pass c };
}

/// A client whose thread runs, or which ran here where no thread could be started.
#[derive(Drop)]
pub enum Started<S: Serving> {
    There(PromisedHandle<Client, Serves<S>>),
    Here(Client),
}

// A client from start to end. It leaves at its end, also where memory ran out.
fn run_client<S: Serving, R: Threads + Wait + Sync>(
    rt: &R,
    alloc: Global,
    shared: &Shared<Accepting<S>>,
    job: Job,
) -> Client
    requires { IsJob S.frame S.sections shared.now job }
    ensures { IsClient S.frame S.sections job.session job.pass result }
{
    let Job { session, mut pass } = job;
    let end = serve_session(rt, alloc, shared, &mut pass, session);
    shared.leave(rt);
    Client { pass, end }
}

fn start<'s, E, S: Serving + Send + Sync, R: Threads + Wait + Sync>(
    scope: &Scope<'s, E>,
    rt: &'s R,
    alloc: Global,
    shared: &'s Shared<Accepting<S>>,
    job: Job,
) -> Started<S>
    requires { IsJob S.frame S.sections shared.now job }
    ensures job { IsStarted S.frame S.sections job result }
    ensures board { IsOnBoard shared.now result }
{
    let promise = Serves {
        job: Snapshot::of(&job),
        serving: PhantomData,
    };
    let serve = move || -> Client
        requires { IsJob S.frame S.sections shared.now job }
        ensures { IsClient S.frame S.sections job.session job.pass result }
    { run_client(rt, alloc, shared, job) };
    match scope.spawn_with(promise, serve) {
        Ok(child) => Started::There(child),
        Err(refused) => Started::Here((refused.value)()),
    }
}

// Starts a client for each job. The list has room for them.
pub(crate) fn start_clients<'s, E, S: Serving + Send + Sync, R: Threads + Wait + Sync>(
    scope: &Scope<'s, E>,
    rt: &'s R,
    alloc: Global,
    shared: &'s Shared<Accepting<S>>,
    jobs: Vec<Job>,
    mut started: Vec<Started<S>>,
) -> Vec<Started<S>>
    requires jobs { AreJobs S.frame S.sections shared.now jobs.items }
    requires none { started.items ≡ [] }
    requires count { vec_len started ≡ 0 }
    requires room { length jobs.items ≤ vec_capacity started }
    ensures jobs { AreStarted S.frame S.sections jobs.items result.items }
    ensures boards { All (IsOnBoard shared.now) result.items }
{
    for job in jobs {
        started.push_reserved(start(scope, rt, alloc, shared, job));
    }
    started
}

fn finish<S: Serving, R: Threads>(rt: &R, started: Started<S>) -> Client
    ensures client { IsFinished S.frame S.sections started result }
    ensures board { (b : BoardView) → IsOnBoard b started → result.pass.board ≡ b }
{
    match started {
        Started::There(child) => child.join(rt),
        Started::Here(client) => client,
    }
}

// Joins the clients' threads, and joins their passes to the one given. The ends stand in the order of the clients. It
// fails where one of them ran out of memory, after all have been joined. The list has room for the ends.
pub(crate) fn finish_clients<S: Serving, R: Threads>(
    rt: &R,
    shared: &Shared<Accepting<S>>,
    started: Vec<Started<S>>,
    mut ends: Vec<SessionEnd>,
    pass: &mut Pass,
) -> Result<Ends, Memory>
    requires pass { pass.old.board ≡ shared.now }
    requires none { ends.items ≡ [] }
    requires count { vec_len ends ≡ 0 }
    requires room { length started.items ≤ vec_capacity ends }
    requires boards { All (IsOnBoard shared.now) started.items }
    ensures ends { IfOk result (λ ends. (jobs : List Job) → AreStarted S.frame S.sections jobs started.items
        → AreGathered S.frame S.sections pass.new jobs ends) }
    ensures falls { NoneRises pass.old pass.new }
{
    let mut failed = false;
    for one in started {
        let Client { pass: other, end } = finish(rt, one);
        pass.join(shared.board(), other);
        failed = keep(&mut ends, end, failed);
    }
    ends_of(ends, failed)
}

// Appends the end, where there is one. Whether any has failed by now.
fn keep(ends: &mut Vec<SessionEnd>, end: Result<SessionEnd, Memory>, failed: bool) -> bool
    requires room { vec_len ends.old < vec_capacity ends.old }
    ensures kept { result ≡ false → (failed ≡ false)
        × MatchResult end (λ e. ends.new.items ≡ ends.old.items ++ e ∷ []) (λ _. ⊥) }
    ensures count { vec_len ends.new ≤ vec_len ends.old + 1 }
    ensures room { vec_capacity ends.new ≡ vec_capacity ends.old }
{
    match end {
        Ok(end) => {
            ends.push_reserved(end);
            failed
        }
        Err(Memory) => true,
    }
}

fn ends_of(ends: Vec<SessionEnd>, failed: bool) -> Result<Ends, Memory>
    ensures { IfOk result (λ all. (failed ≡ false) × (all ≡ ends.items)) }
{
    if failed {
        Err(Memory)
    } else {
        Ok(Ends::of(ends))
    }
}
