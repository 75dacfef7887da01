ghost use Rattle.std.specs.Prelude.{◌≡◌, ℕ, ◌<◌, ◌≤◌, ◌^◌, IfErr, IfOk, reverse, length};
ghost use Rattle.std.specs.List.{remove};
ghost use Rattle.lj_base.specs.Blocks.{Covers};
ghost use Rattle.lj_base.specs.Colex.{choose};
ghost use Rattle.lj_excess.specs.Failures.{IsCountFail};
ghost use Rattle.lj_excess.specs.Multiplicities.{tally_of};
ghost use Rattle.lj_excess.specs.declared.limits.TheConstants.{MAX_COUNTS};
ghost use Rattle.lj_greedy.specs.Reduced.{IsSublist, reduced};

use crate::laws::reduced_law;
use lj_base::{Block, Memory};
use lj_cover::Design;
use lj_excess::{CountFail, Counts, multiplicity_law};
use lj_rank::sets_law;
use std::alloc::Global;

/// The design without its spare blocks: its places are gone through from the last to the first, and a block is left out
/// where those then remaining without it cover. Cost: a few steps for each set of each block; 4 bytes for each set.
pub fn reduce(alloc: Global, d: Design) -> Result<Design, CountFail>
    requires { length d.blocks < 2 ^ 32 }
    ensures ok { IfOk result (λ r. r ≡ record { cell = d.cell; blocks = reduced d.cell d.blocks }) }
    ensures covers { IfOk result (λ r. Covers r.blocks d.cell) }
    ensures needed { IfOk result (λ r. (i : ℕ) → i < length r.blocks → Covers (remove r.blocks i) d.cell → ⊥) }
    ensures sublist { IfOk result (λ r. IsSublist r.blocks d.blocks) }
    ensures shorter { IfOk result (λ r. length r.blocks ≤ length d.blocks) }
    ensures within { IfOk result (λ _. choose d.cell.v d.cell.t ≤ MAX_COUNTS) }
    ensures failed { IfErr result (IsCountFail d.cell) }
{
    reduced_law();
    let counts = Counts::of(alloc, &d)?;
    let Ok(design) = reduce_counted(alloc, d, counts) else {
        return Err(CountFail::Memory);
    };
    Ok(design)
}

/// A design without its spare blocks, as `reduce` makes it, where its blocks have been counted.
pub fn reduce_counted(alloc: Global, d: Design, counts: Counts) -> Result<Design, Memory>
    requires counted { counts ≡ tally_of d.blocks d.cell }
    requires few { length d.blocks < 2 ^ 32 }
    ensures ok { IfOk result (λ r. r ≡ record { cell = d.cell; blocks = reduced d.cell d.blocks }) }
    ensures covers { IfOk result (λ r. Covers r.blocks d.cell) }
    ensures needed { IfOk result (λ r. (i : ℕ) → i < length r.blocks → Covers (remove r.blocks i) d.cell → ⊥) }
    ensures sublist { IfOk result (λ r. IsSublist r.blocks d.blocks) }
    ensures shorter { IfOk result (λ r. length r.blocks ≤ length d.blocks) }
{
    reduced_law();
    let mut kept = needed_blocks(alloc, counts, d.blocks())?;
    kept.reverse();
    Ok(Design::of(d.cell(), kept))
}

// The blocks that remain, the last first.
fn needed_blocks(alloc: Global, counts: Counts, blocks: &[Block]) -> Result<Vec<Block>, Memory>
    requires covers { Covers blocks.now counts.cell }
    requires counted { counts ≡ tally_of blocks.now counts.cell }
    requires few { length blocks.now < 2 ^ 32 }
    ensures { IfOk result (λ kept. reverse kept.items ≡ reduced counts.cell blocks.now) }
{
    sets_law();
    multiplicity_law();
    let mut counts = counts;
    let mut kept = Vec::new(alloc);
    let mut left = blocks.len();
    while left > 0 {
        left -= 1;
        let block = &blocks[left];
        if counts.is_spare(block) {
            counts.remove(block);
        } else {
            kept.push(*block)?;
        }
    }
    Ok(kept)
}
