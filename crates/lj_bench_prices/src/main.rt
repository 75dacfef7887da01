//! Closes the bounds of a frame without uploads, and then finds the least price at each cell as often as asked: what
//! `bench/prices.rs` does by hand. It writes the sum of the bounds and that of the prices.
#![tactic(auto)]

ghost use Rattle.std.specs.Prelude.{All, IfOk};
ghost use Rattle.lj_base.specs.Bounds.{AreBounds};
ghost use Rattle.lj_base.specs.Frames.{InFrame};

use lj_base::{Cell, Frame, Memory, at_cell_law, binom};
use lj_relax::{Ticket, least_price};
use std::alloc::Global;
use std::io::Write;
use std::process::ExitCode;
use std::{env, io};

fn main(rt: HostRuntime) -> ExitCode {
    let mut out = io::writer(&rt);
    let Ok(mut words) = env::args(&rt) else {
        return ExitCode::FAILURE;
    };
    let mut numbers = [0u64; 4];
    for i in 0..4 {
        let word = if i == 0 { words.nth(1) } else { words.next() };
        match word {
            Some(text) => numbers[i] = text.parse::<u64>().unwrap_or(0),
            None => return ExitCode::FAILURE,
        }
    }
    let Some(top) = Cell::with_blocks(numbers[0], numbers[1], numbers[2]) else {
        return ExitCode::FAILURE;
    };
    let frame = Frame::new(top);
    let Ok(mut bounds) = start(rt.alloc(), frame) else {
        return ExitCode::FAILURE;
    };
    close(frame, &mut bounds);
    let sum = bounds.iter().fold(0u64, |sum, n| sum.wrapping_add(*n));
    let Ok(cells) = cells_of(rt.alloc(), frame) else {
        return ExitCode::FAILURE;
    };
    let prices = passes(frame, &cells, &bounds, numbers[3]);
    match write!(out, "sum {sum}\nprices {prices}\n") {
        Ok(()) => ExitCode::SUCCESS,
        Err(_) => ExitCode::FAILURE,
    }
}

// The numbers of sets, and where a rule without children is cheaper its cost.
fn start(alloc: Global, frame: Frame) -> Result<Vec<u64>, Memory>
    ensures { IfOk result (λ bounds. AreBounds frame bounds.items) }
{
    let ticket = Ticket::new(alloc, frame)?;
    let mut bounds = ticket.bounds().to_vec(alloc)?;
    for i in 0..frame.size() {
        let c = frame.cell(i);
        lower(frame, &mut bounds, c, first_bound(c));
    }
    Ok(bounds)
}

fn first_bound(c: Cell) -> u64 {
    let (v, k, t) = (u64::from(c.v), u64::from(c.k), u64::from(c.t));
    if t == 0 || k == v {
        1
    } else if t == 1 {
        v.div_ceil(k)
    } else {
        binom(v, t)
    }
}

// Lowers the cell's bound to n, where n is lower and at least 1; whether it did.
fn lower(frame: Frame, bounds: &mut Vec<u64>, c: Cell, n: u64) -> bool
    requires bounds { AreBounds frame bounds.old.items }
    requires inside { InFrame frame c }
    ensures { AreBounds frame bounds.new.items }
{
    at_cell_law();
    let i = frame.index(c) as usize;
    if n == 0 || bounds[i] <= n {
        return false;
    }
    bounds[i] = n;
    true
}

// Lowers the bounds until none falls.
fn close(frame: Frame, bounds: &mut Vec<u64>)
    requires { AreBounds frame bounds.old.items }
    ensures { AreBounds frame bounds.new.items }
{
    for _ in 0..1000 {
        if !sweep(frame, bounds) {
            return;
        }
    }
}

// Lowers each bound to the least price at its cell; whether one fell.
fn sweep(frame: Frame, bounds: &mut Vec<u64>) -> bool
    requires { AreBounds frame bounds.old.items }
    ensures { AreBounds frame bounds.new.items }
{
    let mut fell = false;
    for i in 0..frame.size() {
        let c = frame.cell(i);
        if let Some(n) = least_price(frame, bounds, &[], c) {
            fell = lower(frame, bounds, c, n) || fell;
        }
    }
    fell
}

// The cells of the frame, in order.
fn cells_of(alloc: Global, frame: Frame) -> Result<Vec<Cell>, Memory>
    ensures { IfOk result (λ cells. All (InFrame frame) cells.items) }
{
    let mut cells = Vec::new(alloc);
    for i in 0..frame.size() {
        cells.push(frame.cell(i))?;
    }
    Ok(cells)
}

// Finds the prices of all cells as many times as asked; their sum.
fn passes(frame: Frame, cells: &[Cell], bounds: &[u64], times: u64) -> u64
    requires cells { All (InFrame frame) cells.now }
    requires bounds { AreBounds frame bounds.now }
{
    let mut sum = 0;
    for _ in 0..times {
        sum = total(frame, cells, bounds);
    }
    sum
}

// The sum of the least prices.
fn total(frame: Frame, cells: &[Cell], bounds: &[u64]) -> u64
    requires cells { All (InFrame frame) cells.now }
    requires bounds { AreBounds frame bounds.now }
{
    let mut sum: u64 = 0;
    for c in cells {
        if let Some(n) = least_price(frame, bounds, &[], *c) {
            sum = sum.wrapping_add(n);
        }
    }
    sum
}
