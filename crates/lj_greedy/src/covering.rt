ghost use Rattle.std.specs.Prelude.{◌≡◌, ℕ, ◌<◌, ◌≤◌, IfErr, IfOk, [], length};
ghost use Rattle.std.specs.List.{remove};
ghost use Rattle.lj_base.specs.Blocks.{Covers, IsBlock};
ghost use Rattle.lj_base.specs.Colex.{choose};
ghost use Rattle.lj_excess.specs.Multiplicities.{tally_of};
ghost use Rattle.lj_greedy.specs.Failures.{IsGreedyFail};
ghost use Rattle.lj_greedy.specs.Greedy.{greedy_list};
ghost use Rattle.lj_greedy.specs.Reduced.{reduced};
ghost use Rattle.lj_rank.specs.Ranks.{rank_of};

use crate::failures::GreedyFail;
use crate::growing::grown_block;
use crate::laws::reduced_law;
use crate::limits::MAX_GREEDY_SETS;
use crate::reducing::reduce;
use lj_base::{Block, Cell, Memory, binom};
use lj_cover::Design;
use lj_excess::{Counts, multiplicity_law, tally_law};
use lj_rank::{TSet, rank_law, unrank};
use std::alloc::Global;

/// A covering made from nothing: while a set is in no block, a block is grown from the first such set by the points
/// that complete the most open sets; then its spare blocks are removed. Cost: for each block, a few steps for each set
/// of `t - 1` of its points and each point of the cell; 4 bytes for each set.
pub fn greedy(alloc: Global, cell: Cell) -> Result<Design, GreedyFail>
    requires { 1 ≤ cell.k }
    ensures ok { IfOk result (λ d. d ≡ record { cell = cell; blocks = reduced cell (greedy_list cell) }) }
    ensures covers { IfOk result (λ d. Covers d.blocks cell) }
    ensures needed { IfOk result (λ d. (i : ℕ) → i < length d.blocks → Covers (remove d.blocks i) cell → ⊥) }
    ensures short { IfOk result (λ d. length d.blocks ≤ choose cell.v cell.t) }
    ensures within { IfOk result (λ _. choose cell.v cell.t ≤ MAX_GREEDY_SETS) }
    ensures failed { IfErr result (IsGreedyFail cell) }
{
    reduced_law();
    let n = set_count(cell);
    if n > MAX_GREEDY_SETS {
        return Err(GreedyFail::TSets { n });
    }
    let Ok(counts) = Counts::none(alloc, cell) else {
        return Err(GreedyFail::Memory);
    };
    let Ok(blocks) = greedy_blocks(alloc, counts) else {
        return Err(GreedyFail::Memory);
    };
    let Ok(design) = reduce(alloc, Design::of(cell, blocks)) else {
        return Err(GreedyFail::Memory);
    };
    Ok(design)
}

// The blocks, from the counts of none. Each rank's set is in some block once the rank has been passed.
fn greedy_blocks(alloc: Global, counts: Counts) -> Result<Vec<Block>, Memory>
    requires none { counts ≡ tally_of [] counts.cell }
    requires few { choose counts.cell.v counts.cell.t ≤ MAX_GREEDY_SETS }
    ensures value { IfOk result (λ blocks. blocks.items ≡ greedy_list counts.cell) }
    ensures covers { IfOk result (λ blocks. Covers blocks.items counts.cell) }
    ensures short { IfOk result (λ blocks. length blocks.items ≤ choose counts.cell.v counts.cell.t) }
{
    rank_law();
    tally_law();
    multiplicity_law();
    let cell = counts.cell();
    let mut counts = counts;
    let mut blocks = Vec::new(alloc);
    for r in 0..set_count(cell) {
        if counts.at(r) == 0 {
            let block = grown_block(&counts, &set_of(cell, r));
            counts.add(&block);
            blocks.push(block)?;
        }
    }
    Ok(blocks)
}

// The number of sets.
fn set_count(cell: Cell) -> u64
    ensures { result ≡ choose cell.v cell.t }
{
    binom(cell.v as u64, cell.t as u64)
}

// The set of a rank.
fn set_of(cell: Cell, r: u64) -> TSet
    requires { r < choose cell.v cell.t }
    ensures set { IsBlock cell.v cell.t result }
    ensures rank { rank_of result ≡ r }
{
    unrank(cell.v as u64, cell.t as u64, r)
}
