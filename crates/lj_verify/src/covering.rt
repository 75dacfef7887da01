ghost use Rattle.std.specs.Prelude.{◌≡◌, ◌≤◌, IfErr, IfOk, length};
ghost use Rattle.lj_base.specs.Blocks.{AreBlocks, Covers};
ghost use Rattle.lj_verify.specs.Limits.{IsWithinLimits};
ghost use Rattle.lj_verify.specs.Refusals.{IsRefused};

use crate::limits::{MAX_WORKERS, within_limits};
use crate::refusals::Refusal;
use crate::sizes::best_size;
use crate::workers::mark_map;
use lj_base::{Block, Cell, binom};
use lj_bitmap::RankMap;
use lj_cover::Design;
use lj_rank::{order_law, rank_law, unrank};
use std::alloc::Global;
use std::thread::Threads;

// Below so many sets in all blocks together a thread is not worth its start.
const FEW_MARKS: u64 = 1 << 22;

/// Whether the blocks cover the cell: each set that a block contains is marked in a bit map, and the first that is not
/// marked is looked for. The result does not depend on the number of workers; where few sets are marked one thread
/// marks them.
/// Cost: at most a few steps for each set of `t - 1` points of a block, and one for each 512 sets; a bit for each set,
/// and for a small map as much again for each worker.
pub fn check<R: Threads + Sync>(
    rt: &R,
    alloc: Global,
    cell: Cell,
    blocks: Vec<Block>,
    workers: u64,
) -> Result<Design, Refusal>
    requires blocks { AreBlocks cell.v cell.k blocks.items }
    requires some_workers { 1 ≤ workers }
    requires few_workers { workers ≤ MAX_WORKERS }
    ensures ok { IfOk result (λ design. design ≡ record { cell = cell; blocks = blocks.items }) }
    ensures within { IfOk result (λ _. IsWithinLimits cell (length blocks.items)) }
    ensures covers { IfOk result (λ _. Covers blocks.items cell) }
    ensures refused { IfErr result (IsRefused cell blocks.items) }
{
    order_law();
    rank_law();
    within_limits(cell, blocks.len() as u64)?;
    let v = cell.v as u64;
    let t = cell.t as u64;
    let Ok(mut map) = RankMap::new(alloc, binom(v, t)) else {
        return Err(Refusal::Memory);
    };
    let size = best_size(v, cell.k as u64, t);
    let threads = threads_for(cell, blocks.len() as u64, workers);
    let Ok(()) = mark_map(rt, alloc, &mut map, &blocks, t, size, threads) else {
        return Err(Refusal::Memory);
    };
    match map.first_clear() {
        None => Ok(Design::of(cell, blocks)),
        Some(r) => Err(Refusal::Uncovered {
            set: unrank(v, t, r),
        }),
    }
}

// How many threads a check of so many blocks is worth: as many as there are workers, but one where few sets are marked.
fn threads_for(cell: Cell, blocks: u64, workers: u64) -> u64
    requires some_workers { 1 ≤ workers }
    requires few_workers { workers ≤ MAX_WORKERS }
    ensures some { 1 ≤ result }
    ensures few { result ≤ MAX_WORKERS }
{
    let sets = binom(u64::from(cell.k), u64::from(cell.t));
    if blocks.saturating_mul(sets) < FEW_MARKS {
        1
    } else {
        workers
    }
}
