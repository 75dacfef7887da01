//! Settles fresh tables as often as asked: what `bench/table.rs` does by hand. The words are one for the work, the
//! numbers of the frame, how often, and, where there is an upload, the numbers of its cell; its blocks are read from
//! standard input. `settle` settles fresh tables, and `upload` accepts the upload in each first. `copy` copies the
//! upload, `accept` accepts the copies in one table, and `close` settles that. Each writes the sum of the bounds.
#![tactic(auto)]

use lj_base::{Cell, Frame, MAX_INPUT, Memory, Source, StdSource};
use lj_blockfile::read_blocks;
use lj_deriv::MAX_ARENA_UPLOADS;
use lj_table::Table;
use lj_text::read_all;
use lj_upload::{Accepted, Name};
use lj_verify::check_plain;
use std::alloc::Global;
use std::env::Args;
use std::io::Write;
use std::process::ExitCode;
use std::{env, io};

fn main(rt: HostRuntime) -> ExitCode {
    let mut input = StdSource::new(rt.reader());
    let mut out = io::writer(&rt);
    let Ok(mut words) = env::args(&rt) else {
        return ExitCode::FAILURE;
    };
    let Some(work) = words.nth(1) else {
        return ExitCode::FAILURE;
    };
    let numbers = numbers_of(&mut words);
    let Some(sum) = run(rt.alloc(), &work, &numbers, &mut input) else {
        return ExitCode::FAILURE;
    };
    match write!(out, "sum {sum}\n") {
        Ok(()) => ExitCode::SUCCESS,
        Err(_) => ExitCode::FAILURE,
    }
}

// The next words as numbers, with 0 where there is none.
fn numbers_of(words: &mut Args) -> [u64; 7] {
    let mut numbers = [0; 7];
    for i in 0..7 {
        if let Some(word) = words.next() {
            numbers[i] = word.parse::<u64>().unwrap_or(0);
        }
    }
    numbers
}

// The sum of the bounds after the work.
fn run<S: Source>(alloc: Global, work: &str, numbers: &[u64; 7], input: &mut S) -> Option<u64> {
    let frame = Frame::new(Cell::with_blocks(numbers[0], numbers[1], numbers[2])?);
    let times = numbers[3];
    if work == "settle" {
        return settled(alloc, frame, times).ok();
    }
    let up = read_upload(alloc, numbers, input)?;
    match work {
        "upload" => settled_with(alloc, frame, &up, times).ok(),
        "copy" => accepted(alloc, frame, &up, times, false, false).ok(),
        "accept" => accepted(alloc, frame, &up, times, true, false).ok(),
        "close" => accepted(alloc, frame, &up, times, true, true).ok(),
        _ => None,
    }
}

// The upload of which the blocks are read, where they cover its cell.
fn read_upload<S: Source>(alloc: Global, numbers: &[u64; 7], input: &mut S) -> Option<Accepted> {
    let cell = Cell::with_blocks(numbers[4], numbers[5], numbers[6])?;
    let text = read_all(alloc, input, MAX_INPUT).ok()?;
    let blocks = read_blocks(alloc, &text, numbers[4], numbers[5]).ok()?;
    let design = check_plain(alloc, cell, blocks).ok()?;
    Accepted::new(alloc, Name::of(b"bench")?, 1, design).ok()
}

// Settles a fresh table that many times.
fn settled(alloc: Global, frame: Frame, times: u64) -> Result<u64, Memory> {
    let mut sum = 0;
    for _ in 0..times {
        let mut table = Table::start(alloc, frame)?;
        table.settle(alloc)?;
        sum = sum_of(&table);
    }
    Ok(sum)
}

// Settles a table that has the upload that many times.
fn settled_with(alloc: Global, frame: Frame, up: &Accepted, times: u64) -> Result<u64, Memory> {
    let mut sum = 0;
    for _ in 0..times {
        sum = accepted(alloc, frame, up, 1, true, true)?;
    }
    Ok(sum)
}

// Copies the upload that many times. A table accepts each copy, and is settled, where asked.
fn accepted(
    alloc: Global,
    frame: Frame,
    up: &Accepted,
    times: u64,
    accepts: bool,
    settles: bool,
) -> Result<u64, Memory> {
    let mut table = Table::start(alloc, frame)?;
    for _ in 0..times {
        let copy = up.copy(alloc)?;
        if accepts {
            accept(&mut table, copy)?;
        }
    }
    if settles {
        table.settle(alloc)?;
    }
    Ok(sum_of(&table))
}

// Accepts the upload, where the frame has its cell.
fn accept(table: &mut Table, up: Accepted) -> Result<(), Memory> {
    let inside = table.frame().has(up.design().cell());
    if inside && (table.accepted().len() as u64) < MAX_ARENA_UPLOADS {
        table.accept(up)?;
    }
    Ok(())
}

fn sum_of(table: &Table) -> u64 {
    table
        .bounds()
        .iter()
        .fold(0u64, |sum, n| sum.wrapping_add(*n))
}
