ghost use Rattle.std.specs.Prelude.{◌≡◌, ℕ, ◌-◌, ◌<◌, ◌≤◌, ◌^◌, List, [], length, slice_index};
ghost use Rattle.lj_base.specs.Blocks.{Ascends, Has, IsBlock, Within};
ghost use Rattle.lj_base.specs.Cells.{IsCell};
ghost use Rattle.lj_excess.specs.Multiplicities.{tally_of};
ghost use Rattle.lj_greedy.specs.Choices.{best_point, lacking, with_point};
ghost use Rattle.lj_greedy.specs.Gains.{AreGains, is_zero_at};
ghost use Rattle.lj_greedy.specs.Greedy.{greedy_block, grown, is_open};

use crate::gains::{add_to_gains, set_size, start_gains};
use lj_base::{Block, choose_law};
use lj_cover::laws::points_are_tested;
use lj_excess::{Counts, tally_law};
use lj_rank::{TSet, order_law, rank_law};

/// The block that is grown from an open set. Cost: a few steps for each set of `t - 1` points of the block and each
/// point of the cell.
pub(crate) fn grown_block(counts: &Counts, set: &TSet) -> Block
    requires { IsBlock counts.now.cell.v counts.now.cell.t set.now }
    ensures value { (bs : List (List ℕ)) → counts.now ≡ tally_of bs counts.now.cell →
        result ≡ greedy_block (is_open bs) counts.now.cell set.now }
    ensures block { IsBlock counts.now.cell.v counts.now.cell.k result }
    ensures within { Within set.now result }
{
    points_are_tested();
    tally_law();
    let v = points(counts) as usize;
    let mut zeros = [0; 99];
    let gains = &mut zeros[..v];
    start_gains(counts, gains);
    let start = block_of_set(counts, gains, set);
    grow(counts, gains, start)
}

// The block of a set's points, and its gains from those of no points.
fn block_of_set(counts: &Counts, gains: &mut [u64], set: &TSet) -> Block
    requires len { length gains.old ≡ counts.now.cell.v }
    requires set { IsBlock counts.now.cell.v counts.now.cell.t set.now }
    requires gains { AreGains (is_zero_at counts.now.counts) counts.now.cell.t [] gains.old }
    ensures block { result ≡ set.now }
    ensures gains { AreGains (is_zero_at counts.now.counts) counts.now.cell.t set.now gains.new }
    ensures len { length gains.new ≡ length gains.old }
{
    let mut block = Block::empty();
    for i in 0..set.len() {
        let p = set.at(i);
        add_to_gains(counts, gains, &block, p);
        block.push(p);
    }
    block
}

// The block with the best points added until it is as long as the cell's blocks.
fn grow(counts: &Counts, gains: &mut [u64], start: Block) -> Block
    requires len { length gains.old ≡ counts.now.cell.v }
    requires start { IsBlock counts.now.cell.v counts.now.cell.t start }
    requires gains { AreGains (is_zero_at counts.now.counts) counts.now.cell.t start gains.old }
    ensures value { result ≡ greedy_block (is_zero_at counts.now.counts) counts.now.cell start }
    ensures block { IsBlock counts.now.cell.v counts.now.cell.k result }
    ensures within { Within start result }
{
    points_are_tested();
    choose_law();
    let k = block_size(counts);
    let mut block = start;
    while block.len() < k {
        let p = best_point(&block, gains);
        add_to_gains(counts, gains, &block, p);
        block = with_point(block, p);
    }
    block
}

// The number of points.
fn points(counts: &Counts) -> u64
    ensures value { result ≡ counts.now.cell.v }
    ensures limits { IsCell counts.now.cell }
{
    counts.cell().v as u64
}

// The number of points of a block.
fn block_size(counts: &Counts) -> u64
    ensures value { result ≡ counts.now.cell.k }
    ensures limits { IsCell counts.now.cell }
{
    counts.cell().k as u64
}

// The point that the block lacks with the greatest gain; the least of several.
fn best_point(block: &Block, gains: &[u64]) -> u8
    requires few { length gains.now ≤ 99 }
    requires block { Ascends 0 (length gains.now) block.now }
    requires room { length block.now < length gains.now }
    requires small { (p : ℕ) → p < length gains.now → slice_index gains.now p < 2 ^ 64 - 1 }
    ensures value { result ≡ best_point (slice_index gains.now) (lacking (length gains.now) block.now) }
    ensures lacks { Has block.now result → ⊥ }
    ensures below { result < length gains.now }
{
    points_are_tested();
    let mut best = 0;
    let mut least = 0;
    for p in 0..gains.len() {
        let p = p as u8;
        if gains[p as usize] >= least && !block.has(p) {
            best = p;
            least = gains[p as usize] + 1;
        }
    }
    best
}

// The block with one point more.
fn with_point(block: Block, p: u8) -> Block
    requires in_range { p < 99 }
    requires fresh { Has block p → ⊥ }
    requires room { length block < 25 }
    ensures { result ≡ with_point p block }
{
    rank_law();
    order_law();
    let _short = block.len();
    let mut larger = block;
    larger.insert(p);
    let _long = larger.len();
    larger
}
