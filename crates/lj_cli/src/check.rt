ghost use Rattle.std.specs.Prelude.{◌≤◌, IfOk};
ghost use Rattle.lj_cli.specs.CheckOutput.{IsCheckOutput, IsVerdict};
ghost use Rattle.lj_cli.specs.Ends.{Ends, input_of, output_of};

use crate::prints::{end_early, print};
use crate::status::NO_MEMORY;
use crate::verdicts::Verdict;
use lj_base::{Cell, MAX_INPUT, Memory, Sink, Source};
use lj_blockfile::{BodyFault, read_blocks};
use lj_text::read_all;
use lj_verify::{MAX_WORKERS, Refusal, check};
use std::alloc::Global;
use std::thread::Threads;

/// Reads blocks from `input` and prints to `out` whether they cover the cell. Returns the status.
pub fn check_run<R: Threads + Sync, S: Source, K: Sink>(
    rt: &R,
    alloc: Global,
    cell: Cell,
    workers: u64,
    input: &mut S,
    out: &mut K,
) -> u8
    requires some_points { 1 ≤ cell.k }
    requires some_workers { 1 ≤ workers }
    requires few_workers { workers ≤ MAX_WORKERS }
    ensures { Ends (IsCheckOutput cell) (input_of S.left S.faults input.old input.new)
        (output_of K.written K.faults out.old out.new) result }
{
    let bytes = match read_all(alloc, input, MAX_INPUT) {
        Ok(bytes) => bytes,
        Err(fail) => return end_early(out, fail),
    };
    let Ok(verdict) = verdict(rt, alloc, cell, workers, &bytes) else {
        return NO_MEMORY;
    };
    match verdict.text(alloc) {
        Ok(text) => print(out, &text, verdict.status()),
        Err(Memory) => NO_MEMORY,
    }
}

// What holds of the bytes.
fn verdict<R: Threads + Sync>(
    rt: &R,
    alloc: Global,
    cell: Cell,
    workers: u64,
    bytes: &[u8],
) -> Result<Verdict, Memory>
    requires some_points { 1 ≤ cell.k }
    requires some_workers { 1 ≤ workers }
    requires few_workers { workers ≤ MAX_WORKERS }
    ensures { IfOk result (IsVerdict cell bytes.now) }
{
    let blocks = match read_blocks(alloc, bytes, cell.v as u64, cell.k as u64) {
        Ok(blocks) => blocks,
        Err(BodyFault::Memory) => return Err(Memory),
        Err(fault) => return Ok(Verdict::Fault { fault }),
    };
    match check(rt, alloc, cell, blocks, workers) {
        Ok(design) => Ok(Verdict::Covered {
            blocks: design.blocks().len() as u64,
        }),
        Err(Refusal::Memory) => Err(Memory),
        Err(refusal) => Ok(Verdict::Refused { refusal }),
    }
}
