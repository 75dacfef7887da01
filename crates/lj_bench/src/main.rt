//! Work that the scripts in `bench/` time. The word says which: `blocks` writes the blocks of a plan of 994,500 blocks,
//! `few_blocks` those of a small one, `short_rows` and `long_rows` those of plans of 946,125 blocks over a nested node,
//! in rows of 5 and of 189,225. `stream` writes the first one's blocks one by one. `blocks_at`,
//! `short_rows_at` and `long_rows_at` take a million blocks of these plans at random positions, and write a sum.
//! `script` reads a script from standard input, and `lines` its lines alone.
#![tactic(auto)]

ghost use Rattle.std.specs.Prelude.{◌≡◌};

use lj_base::{Cell, Frame, MAX_INPUT, Memory, Sink, Source, StdSink, StdSource};
use lj_deriv::{Arena, Part, Plan, Rule};
use lj_expand::{MAX_EXPANDED, block_at, stream, write_blocks};
use lj_samples::{five_fives, three_fours, upload};
use lj_script::read_script;
use lj_text::{Lines, put, put_number, read_all, write_all};
use std::alloc::Global;
use std::process::ExitCode;
use std::{env, io};

fn main(rt: HostRuntime) -> ExitCode {
    let mut input = StdSource::new(rt.reader());
    let mut out = StdSink::new(io::writer(&rt));
    let Ok(mut words) = env::args(&rt) else {
        return ExitCode::FAILURE;
    };
    let done = match words.nth(1) {
        Some(word) => run(rt.alloc(), &word, &mut input, &mut out),
        None => None,
    };
    match done {
        Some(()) => ExitCode::SUCCESS,
        None => ExitCode::FAILURE,
    }
}

// Does the work that the word names, and writes what came of it.
fn run<S: Source, K: Sink>(alloc: Global, word: &str, input: &mut S, out: &mut K) -> Option<()> {
    let text = match word {
        "blocks" => blocks(alloc, large_plan(alloc)?)?,
        "few_blocks" => blocks(alloc, small_plan(alloc)?)?,
        "short_rows" => blocks(alloc, nested_plan(alloc, false).ok()?)?,
        "long_rows" => blocks(alloc, nested_plan(alloc, true).ok()?)?,
        "blocks_at" => blocks_at(alloc, &large_plan(alloc)?)?,
        "short_rows_at" => blocks_at(alloc, &nested_plan(alloc, false).ok()?)?,
        "long_rows_at" => blocks_at(alloc, &nested_plan(alloc, true).ok()?)?,
        "stream" => one_by_one(alloc, &large_plan(alloc)?, out)?,
        "script" => script(alloc, input)?,
        "lines" => lines(alloc, input)?,
        _ => return None,
    };
    write_all(out, &text).ok()
}

// A covering of the pairs of 91 points by the pairs of 51 beside the pairs of 40: 1275 times 780 blocks.
fn large_plan(alloc: Global) -> Option<Plan> {
    let mut arena = Arena::new(alloc, Frame::new(Cell { v: 91, k: 4, t: 2 }));
    arena.reserve(3).ok()?;
    let first = arena.add(Rule::All {
        cell: Cell { v: 51, k: 2, t: 2 },
    });
    let second = arena.add(Rule::All {
        cell: Cell { v: 40, k: 2, t: 2 },
    });
    let part = Part {
        a: 0,
        b: 2,
        l: 2,
        first,
        second,
    };
    let root = arena.add(Rule::Product {
        cell: Cell { v: 91, k: 4, t: 2 },
        v1: 51,
        parts: [part; 9],
        count: 1,
    });
    arena.plan(alloc, root).ok()
}

// A covering of the pairs of 5 points by the pairs of 3 beside the pair of 2: 3 blocks.
fn small_plan(alloc: Global) -> Option<Plan> {
    let mut arena = Arena::new(alloc, Frame::new(Cell { v: 5, k: 4, t: 2 }));
    arena.reserve(3).ok()?;
    let first = arena.add(Rule::All {
        cell: Cell { v: 3, k: 2, t: 2 },
    });
    let second = arena.add(Rule::All {
        cell: Cell { v: 2, k: 2, t: 2 },
    });
    let part = Part {
        a: 0,
        b: 2,
        l: 2,
        first,
        second,
    };
    let root = arena.add(Rule::Product {
        cell: Cell { v: 5, k: 4, t: 2 },
        v1: 3,
        parts: [part; 9],
        count: 1,
    });
    arena.plan(alloc, root).ok()
}

// 946,125 blocks: the five of a nested node, which is induced over one that is derived at two points, beside the pairs
// of 30 points beside those of 30 others. A row has five of them, or it has all of the pairs.
fn nested_plan(alloc: Global, are_long: bool) -> Result<Plan, Memory> {
    let mut arena = Arena::new(alloc, Frame::new(Cell { v: 65, k: 7, t: 4 }));
    let inner = arena.push_upload(upload(alloc, 1, five_fives(alloc)?)?)?;
    let outer = arena.push_upload(upload(alloc, 2, three_fours(alloc)?)?)?;
    arena.reserve(5)?;
    let mut children = [0; 26];
    children[4] = arena.add(Rule::Derived2 {
        upload: inner,
        first: 0,
        second: 1,
    });
    let nested = arena.add(Rule::Induced {
        cell: Cell { v: 5, k: 3, t: 2 },
        upload: outer,
        children,
    });
    let pairs = arena.add(Rule::All {
        cell: Cell { v: 30, k: 2, t: 2 },
    });
    let fours = arena.add(Rule::product(Cell { v: 60, k: 4, t: 2 }, 30, &[part(2, pairs, pairs)]));
    if are_long {
        let parts = [part(3, nested, fours)];
        let root = arena.add(Rule::product(Cell { v: 65, k: 7, t: 2 }, 5, &parts));
        return arena.plan(alloc, root);
    }
    let parts = [part(4, fours, nested)];
    let root = arena.add(Rule::product(Cell { v: 65, k: 7, t: 2 }, 60, &parts));
    arena.plan(alloc, root)
}

// The one part of a product, which serves the sets with up to two points on the first side.
fn part(l: u8, first: u64, second: u64) -> Part
    ensures { result ≡ record { a = 0; b = 2; l = l; first = first; second = second } }
{
    Part {
        a: 0,
        b: 2,
        l,
        first,
        second,
    }
}

// The lines of the plan's blocks.
fn blocks(alloc: Global, plan: Plan) -> Option<Vec<u8>> {
    if plan.cost() > MAX_EXPANDED || plan.cell().k == 0 {
        return None;
    }
    let mut text = Vec::new(alloc);
    write_blocks(alloc, &plan, &mut text).ok()?;
    Some(text)
}

// Writes the plan's blocks one by one.
fn one_by_one<K: Sink>(alloc: Global, plan: &Plan, out: &mut K) -> Option<Vec<u8>> {
    if plan.cell().k == 0 {
        return None;
    }
    stream(plan, out).ok()?;
    Some(Vec::new(alloc))
}

// The sum of the first points of a million blocks at random positions.
fn blocks_at(alloc: Global, plan: &Plan) -> Option<Vec<u8>> {
    let cost = plan.cost();
    let mut state = 1u64;
    let mut sum = 0u64;
    for _call in 0..1_000_000 {
        state = state
            .wrapping_mul(6_364_136_223_846_793_005)
            .wrapping_add(1);
        let block = block_at(plan, (state >> 32) % cost);
        if block.len() > 0 {
            sum = sum.wrapping_add(u64::from(block.at(0)));
        }
    }
    line(alloc, b"sum ", sum)
}

// The number of sections of a script.
fn script<S: Source>(alloc: Global, input: &mut S) -> Option<Vec<u8>> {
    let bytes = read_all(alloc, input, MAX_INPUT).ok()?;
    let script = read_script(alloc, &bytes).ok()?;
    line(alloc, b"sections ", script.sections().len() as u64)
}

// The number of lines of a text.
fn lines<S: Source>(alloc: Global, input: &mut S) -> Option<Vec<u8>> {
    let bytes = read_all(alloc, input, MAX_INPUT).ok()?;
    line(alloc, b"lines ", Lines::of(&bytes).count() as u64)
}

// A line of a word and a number.
fn line(alloc: Global, word: &[u8], n: u64) -> Option<Vec<u8>> {
    let mut text = Vec::new(alloc);
    put(&mut text, word).ok()?;
    put_number(&mut text, n).ok()?;
    put(&mut text, b"\n").ok()?;
    Some(text)
}
