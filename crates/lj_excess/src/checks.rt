ghost use Rattle.std.specs.Prelude.{◌≡◌, ◌<◌, ◌≤◌, ◌^◌, IfErr, IfOk, OnOk, length};
ghost use Rattle.lj_base.specs.Blocks.{AreBlocks, Covers};
ghost use Rattle.lj_base.specs.Colex.{choose};
ghost use Rattle.lj_excess.specs.Multiplicities.{tally_of};
ghost use Rattle.lj_excess.specs.declared.limits.TheConstants.{MAX_COUNTS};
ghost use Rattle.lj_verify.specs.Limits.{IsWithinLimits};
ghost use Rattle.lj_verify.specs.Refusals.{ExceedsLimit, IsRefused};

use crate::counts::Counts;
use crate::laws::{multiplicity_law, tally_law};
use lj_base::{Block, Cell, MAX_BLOCKS, MAX_MARKS, Memory, binom};
use lj_cover::Design;
use lj_rank::{order_law, rank_law, unrank};
use lj_verify::Refusal;
use std::alloc::Global;

/// A design and the counts of its blocks.
#[derive(Debug, Drop)]
pub struct Counted {
    pub design: Design,
    pub counts: Counts,
}

/// Whether the blocks cover a cell with few enough sets, as a check by marks says it, with the counts of the blocks.
/// Where the counts are wanted too, no marks are made. Cost: that of the counts.
pub fn check_counted(alloc: Global, cell: Cell, blocks: Vec<Block>) -> Result<Counted, Refusal>
    requires blocks { AreBlocks cell.v cell.k blocks.items }
    requires few { choose cell.v cell.t ≤ MAX_COUNTS }
    ensures ok { IfOk result (λ counted. counted.design ≡ record { cell = cell; blocks = blocks.items }) }
    ensures counts { IfOk result (λ counted. counted.counts ≡ tally_of blocks.items cell) }
    ensures within { IfOk result (λ _. IsWithinLimits cell (length blocks.items)) }
    ensures covers { IfOk result (λ _. Covers blocks.items cell) }
    ensures refused { IfErr result (IsRefused cell blocks.items) }
{
    order_law();
    rank_law();
    multiplicity_law();
    tally_law();
    within_limits(cell, blocks.len() as u64)?;
    let Ok(counts) = counts_of(alloc, cell, &blocks) else {
        return Err(Refusal::Memory);
    };
    match counts.first_uncovered() {
        None => {
            let design = Design::of(cell, blocks);
            Ok(Counted { design, counts })
        }
        Some(r) => Err(Refusal::Uncovered {
            set: unrank(cell.v as u64, cell.t as u64, r),
        }),
    }
}

// The counts of these blocks.
fn counts_of(alloc: Global, cell: Cell, blocks: &[Block]) -> Result<Counts, Memory>
    requires blocks { AreBlocks cell.v cell.k blocks.now }
    requires few { choose cell.v cell.t ≤ MAX_COUNTS }
    requires short { length blocks.now < 2 ^ 32 }
    ensures { IfOk result (λ counts. counts ≡ tally_of blocks.now cell) }
{
    let Ok(mut counts) = Counts::none(alloc, cell) else {
        return Err(Memory);
    };
    counts.add_all(blocks);
    Ok(counts)
}

// Whether this many blocks can be checked for a cell with few enough sets; else the first limit that they exceed.
fn within_limits(cell: Cell, blocks: u64) -> Result<(), Refusal>
    requires few { choose cell.v cell.t ≤ MAX_COUNTS }
    ensures within { OnOk result (IsWithinLimits cell blocks) }
    ensures exceeds { IfErr result (ExceedsLimit cell blocks) }
{
    if blocks > MAX_BLOCKS {
        return Err(Refusal::Blocks { n: blocks });
    }
    let marks = blocks * binom(cell.k as u64, cell.t as u64);
    if marks > MAX_MARKS {
        return Err(Refusal::Marks { n: marks });
    }
    Ok(())
}
