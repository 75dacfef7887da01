ghost use Rattle.std.specs.Prelude.{◌≡◌, ◌+◌, ◌-◌, ◌*◌, ◌<◌, ◌≤◌, ◌⊎◌, IfOk};
ghost use Rattle.std.specs.List.{range_with_len};
ghost use Rattle.lj_base.specs.Colex.{sets};
ghost use Rattle.lj_cover.specs.BlockLists.{one_block, run, run_blocks};

use lj_base::{Block, Cell, Memory, binom};
use lj_cover::laws::{all_cover, one_covers, runs_cover};
use lj_cover::{Design, fill, runs_count};
use lj_rank::{TSet, next, rank_law, unrank};
use std::alloc::Global;

/// One block, of the first points.
pub(crate) fn one_design(alloc: Global, cell: Cell) -> Result<Design, Memory>
    requires { (cell.t ≡ 0) ⊎ (cell.k ≡ cell.v) }
    ensures { IfOk result (λ design. design ≡ record { cell = cell; blocks = one_block cell.k }) }
{
    one_covers();
    let mut blocks = Vec::with_capacity(alloc, 1)?;
    blocks.push_reserved(points_between(0, u64::from(cell.k)));
    Ok(Design::of(cell, blocks))
}

/// Runs of `k` points, as many as reach each point.
pub(crate) fn runs_design(alloc: Global, cell: Cell) -> Result<Design, Memory>
    requires sets { cell.t ≡ 1 }
    requires some { 1 ≤ cell.k }
    ensures { IfOk result (λ design. design ≡ record { cell = cell; blocks = run_blocks cell.v cell.k }) }
{
    runs_cover();
    let v = u64::from(cell.v);
    let k = u64::from(cell.k);
    let count = runs_count(cell);
    let mut blocks = Vec::with_capacity(alloc, count as usize)?;
    for i in 0..count {
        blocks.push_reserved(run_of(v, k, i));
    }
    Ok(Design::of(cell, blocks))
}

/// The run number `i`, from 0: its points below `v`, filled to `k`.
pub(crate) fn run_of(v: u64, k: u64, i: u64) -> Block
    requires few { v ≤ 99 }
    requires room { k ≤ v }
    requires short { k ≤ 25 }
    requires begins { i * k < v }
    ensures { result ≡ run v k i }
{
    let first = i * k;
    fill(points_between(first, v.min(first + k)), v, k)
}

/// The block of the points from `first` on and before `end`.
pub(crate) fn points_between(first: u64, end: u64) -> Block
    requires order { first ≤ end }
    requires few { end ≤ 99 }
    requires short { end ≤ first + 25 }
    ensures { result ≡ range_with_len first (end - first) }
{
    let mut block = Block::empty();
    for point in first..end {
        block.push(point as u8);
    }
    block
}

/// All blocks, in colexicographic order. Cost: a few steps for each point of a block.
pub(crate) fn all_design(alloc: Global, cell: Cell) -> Result<Design, Memory>
    requires sets { cell.t ≡ cell.k }
    requires small { cell.k ≤ 8 }
    ensures { IfOk result (λ design. design ≡ record { cell = cell; blocks = sets cell.v cell.k }) }
{
    all_cover();
    rank_law();
    let v = u64::from(cell.v);
    let k = u64::from(cell.k);
    let count = binom(v, k);
    let mut blocks = Vec::with_capacity(alloc, count as usize)?;
    let mut set = unrank(v, k, 0);
    for _rank in 0..count {
        blocks.push_reserved(block_of(&set));
        next(v, &mut set);
    }
    Ok(Design::of(cell, blocks))
}

/// The set as a block.
pub(crate) fn block_of(set: &TSet) -> Block
    ensures { result ≡ set.now }
{
    let mut block = Block::empty();
    for i in 0..set.len() {
        block.push(set.at(i));
    }
    block
}
