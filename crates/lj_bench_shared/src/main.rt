//! Brings a frame's table to rest: without workers by `settle`, on one thread; else by one, two or four workers over a
//! shared table. Its words are V K T WORKERS and what is written: `sum` is the sum of the bounds; `time` is the number
//! of the workers' turns, and how many nanoseconds passed; `held` says of one worker's turns, on a table that is not
//! shared, how long the claims took, how long the publications, and how long all, in nanoseconds. There each ticket
//! gets a copy of the table's lists, whose time counts for all alone.
#![tactic(auto)]

ghost use Rattle.std.specs.Prelude.{◌≡◌, [], IfOk};
ghost use Rattle.lj_board.specs.Seen.{NoneRises};

use lj_base::{Cell, Frame, Memory};
use lj_board::{Pass, Setting};
use lj_history::History;
use lj_relax::{Ticket, evaluate};
use lj_shared::{Next, Shared, State, Worked};
use lj_table::Table;
use std::alloc::Global;
use std::io::Write;
use std::marker::Brand;
use std::process::ExitCode;
use std::rt::Clock;
use std::sync::Wait;
use std::thread::{Threads, join};
use std::time::Instant;
use std::{env, io};

fn main(rt: HostRuntime) -> ExitCode {
    let mut out = io::writer(&rt);
    let Ok(mut words) = env::args(&rt) else {
        return ExitCode::FAILURE;
    };
    let mut numbers = [0u64; 4];
    for i in 0..4 {
        let word = if i == 0 { words.nth(1) } else { words.next() };
        match word {
            Some(text) => numbers[i] = text.parse::<u64>().unwrap_or(0),
            None => return ExitCode::FAILURE,
        }
    }
    let Some(word) = words.next() else {
        return ExitCode::FAILURE;
    };
    let Some(top) = Cell::with_blocks(numbers[0], numbers[1], numbers[2]) else {
        return ExitCode::FAILURE;
    };
    match run(
        &rt,
        rt.alloc(),
        &mut out,
        Frame::new(top),
        numbers[3],
        &word,
    ) {
        Some(()) => ExitCode::SUCCESS,
        None => ExitCode::FAILURE,
    }
}

// Does the work, and writes what the word names.
fn run<R: Threads + Wait + Sync + Clock, W: Write>(
    rt: &R,
    alloc: Global,
    out: &mut W,
    frame: Frame,
    workers: u64,
    word: &str,
) -> Option<()> {
    match word {
        "sum" => {
            let (table, _) = at_rest(rt, alloc, frame, workers).ok()?;
            write!(out, "sum {}\n", sum_of(&table)).ok()
        }
        "time" => {
            let start = Instant::now(rt).ok()?;
            let (_, turns) = at_rest(rt, alloc, frame, workers).ok()?;
            write!(out, "turns {turns} ns {}\n", nanos(rt, start)?).ok()
        }
        "held" => {
            let (claims, publications, all) = held(rt, alloc, frame)?;
            write!(
                out,
                "claims {claims} publications {publications} all {all}\n"
            )
            .ok()
        }
        _ => None,
    }
}

// How many nanoseconds have passed.
fn nanos<R: Clock>(rt: &R, start: Instant) -> Option<u64> {
    let time = start.elapsed(rt).ok()?;
    let whole = time.as_secs().wrapping_mul(1_000_000_000);
    Some(whole.wrapping_add(u64::from(time.subsec_nanos())))
}

fn sum_of(table: &Table) -> u64 {
    table
        .bounds()
        .iter()
        .fold(0u64, |sum, n| sum.wrapping_add(*n))
}

// The table at rest, and how many turns the workers took.
fn at_rest<R: Threads + Wait + Sync>(
    rt: &R,
    alloc: Global,
    frame: Frame,
    workers: u64,
) -> Result<(Table, u64), Memory> {
    if workers == 0 {
        let mut table = Table::start(alloc, frame)?;
        table.settle(alloc)?;
        return Ok((table, 0));
    }
    let history = History::start(alloc)?;
    shared_at_rest::<Brand, R>(rt, alloc, frame, workers, history)
}

fn shared_at_rest<J: Setting + Send + Sync, R: Threads + Wait + Sync>(
    rt: &R,
    alloc: Global,
    frame: Frame,
    workers: u64,
    history: History,
) -> Result<(Table, u64), Memory>
    requires frame { frame ≡ J.frame }
    requires named { history.history ≡ J.history }
    requires new { history.changes ≡ [] }
{
    let (shared, pass) = Shared::<J>::start(alloc, frame, 0, history)?;
    let turns = work(rt, alloc, &shared, pass, workers)?;
    Ok((shared.finish(), turns))
}

// One, two or four workers, each in a thread; the number of their turns.
fn work<J: Setting + Send + Sync, R: Threads + Wait + Sync>(
    rt: &R,
    alloc: Global,
    shared: &Shared<J>,
    mut pass: Pass,
    workers: u64,
) -> Result<u64, Memory>
    requires { pass.board ≡ shared.now }
{
    if workers == 1 {
        return work_alone(rt, alloc, shared, pass);
    }
    let other = pass.split(shared.board());
    if workers < 4 {
        return work_in_two(rt, alloc, shared, pass, other);
    }
    let (first, second) = (pass.split(shared.board()), pass.split(shared.board()));
    let (a, b) = join(
        rt,
        || -> Result<u64, Memory>
            requires pass { pass.board ≡ shared.now }
            requires other { other.board ≡ shared.now }
        { work_in_two(rt, alloc, shared, pass, other) },
        || -> Result<u64, Memory>
            requires first { first.board ≡ shared.now }
            requires second { second.board ≡ shared.now }
        { work_in_two(rt, alloc, shared, first, second) },
    );
    Ok(a?.saturating_add(b?))
}

fn work_in_two<J: Setting + Send + Sync, R: Threads + Wait + Sync>(
    rt: &R,
    alloc: Global,
    shared: &Shared<J>,
    pass: Pass,
    other: Pass,
) -> Result<u64, Memory>
    requires pass { pass.board ≡ shared.now }
    requires other { other.board ≡ shared.now }
{
    let (a, b) = join(
        rt,
        || work_alone(rt, alloc, shared, pass),
        || work_alone(rt, alloc, shared, other),
    );
    Ok(a?.saturating_add(b?))
}

fn work_alone<J: Setting, R: Wait>(
    rt: &R,
    alloc: Global,
    shared: &Shared<J>,
    mut pass: Pass,
) -> Result<u64, Memory>
    requires { pass.board ≡ shared.now }
{
    let mut ticket = shared.ticket(rt, alloc)?;
    for turn in 0..u64::MAX {
        match shared.work_one(rt, &mut pass, ticket)? {
            Worked::Turn { ticket: back } => ticket = back,
            Worked::Ended => return Ok(turn),
        }
    }
    Ok(u64::MAX)
}

// The nanoseconds of one worker's claims, of its publications, and of all, on a table of its own.
fn held<R: Clock>(rt: &R, alloc: Global, frame: Frame) -> Option<(u64, u64, u64)> {
    let mut state = State {
        table: Table::start(alloc, frame).ok()?,
        clients: 0,
    };
    let mut ticket = Ticket::new(alloc, frame).ok()?;
    let start = Instant::now(rt).ok()?;
    let (mut claims, mut publications) = (0u64, 0u64);
    for _ in 0..u64::MAX {
        state.table.copy_into(&mut ticket);
        let before = nanos(rt, start)?;
        if state.next_current(&mut ticket) != Next::Claimed {
            return Some((claims, publications, before));
        }
        let claimed = nanos(rt, start)?;
        let nodes = state.table.node_count();
        let p = evaluate(ticket);
        let found = nanos(rt, start)?;
        state.put_known(&p, nodes).ok()?;
        let published = nanos(rt, start)?;
        claims = claims.wrapping_add(claimed.wrapping_sub(before));
        publications = publications.wrapping_add(published.wrapping_sub(found));
        ticket = p.into_ticket();
    }
    None
}
