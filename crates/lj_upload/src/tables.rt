ghost use Rattle.std.specs.Prelude.{◌≡◌, ℕ, ◌+◌, ◌<◌, ◌≤◌, ◌&&◌, if◌then◌else◌, [], IfOk, length, replicate};
ghost use Rattle.std.specs.Prelude.{slice_index, slice_index_or, take};
ghost use Rattle.lj_base.specs.Blocks.{AllBelow};
ghost use Rattle.lj_cover.specs.Instances.{cut_counts};
ghost use Rattle.lj_cover.specs.Operations.{cut, has_point};
ghost use Rattle.lj_upload.specs.Tables.{CountsPairs, entry, one_more_at, times};
ghost use Rattle.lj_upload.specs.Uploads.{cut_table};

use lj_base::{Block, MAX_BLOCKS, Memory};
use lj_cover::{Design, cut_first};
use std::alloc::Global;

/// For each two points how many blocks hold both, in the row of the lesser one; with itself a point has its degree.
/// Cost: a step for each two points of a block.
pub(crate) fn pair_table(alloc: Global, design: &Design) -> Result<Vec<[u32; 99]>, Memory>
    requires { length design.now.blocks ≤ MAX_BLOCKS }
    ensures { IfOk result (λ table. CountsPairs design.now.cell.v design.now.blocks table.items) }
{
    let cell = design.cell();
    let mut table = zero_rows(alloc, cell.v as usize)?;
    for block in design.blocks() {
        add_pairs(&mut table, block);
    }
    Ok(table)
}

// Counts the block at each two of its points.
fn add_pairs(table: &mut [[u32; 99]], block: &Block)
    requires below { AllBelow (length table.old) block.now }
    requires room { (p q : ℕ) → p ≤ q → entry table.old p q ≤ MAX_BLOCKS }
    ensures len { length table.new ≡ length table.old }
    ensures entries { (p q : ℕ) → p ≤ q → entry table.new p q ≡ entry table.old p q
        + (if has_point block.now p && has_point block.now q then 1 else 0) }
{
    for i in 0..block.len() {
        let row = &mut table[block.at(i) as usize];
        add_points(row, block, i);
    }
}

// Counts the block at each of its points from a place on.
fn add_points(row: &mut [u32], block: &Block, from: u64)
    requires len { length row.old ≡ 99 }
    requires within { from < length block.now }
    requires room { (q : ℕ) → slice_index block.now from ≤ q → slice_index row.old q ≤ MAX_BLOCKS }
    ensures { (q : ℕ) → slice_index row.new q + times (take from block.now) q
        ≡ slice_index row.old q + times block.now q }
{
    for j in from..block.len() {
        row[block.at(j) as usize] += 1;
    }
}

/// For each `w` from 0 to `v`, how many blocks have `l` points below `w`, for each `l`. Cost: a step for each block and
/// `w`.
pub(crate) fn cut_table(alloc: Global, v: u8, blocks: &[Block]) -> Result<Vec<[u32; 26]>, Memory>
    requires { length blocks.now ≤ MAX_BLOCKS }
    ensures { IfOk result (λ table. table.items ≡ cut_table v blocks.now) }
{
    let mut table = zero_rows(alloc, v as usize + 1)?;
    for block in blocks {
        add_cuts(&mut table, block);
    }
    Ok(table)
}

/// One row of that table. Cost: a step for each block and each of its points.
pub(crate) fn cut_row(w: u64, blocks: &[Block]) -> [u32; 26]
    requires { length blocks.now ≤ MAX_BLOCKS }
    ensures { result ≡ cut_counts w blocks.now }
{
    let mut row = [0; 26];
    for block in blocks {
        let below = points_below(block, w);
        row[below as usize] += 1;
    }
    row
}

// How many of the block's points are below `w`.
fn points_below(block: &Block, w: u64) -> u64
    ensures count { result ≡ length (cut w block.now) }
    ensures short { result ≤ 25 }
{
    cut_first(*block, w).len()
}

// Counts the block in each row, at the number of its points below the row's.
fn add_cuts(table: &mut [[u32; 26]], block: &Block)
    requires { (w l : ℕ) → w < length table.old → entry table.old w l ≤ MAX_BLOCKS }
    ensures len { length table.new ≡ length table.old }
    ensures rows { (w : ℕ) → w < length table.old → slice_index_or table.new w []
        ≡ one_more_at (slice_index_or table.old w []) (length (cut w block.now)) }
{
    let mut below = 0;
    for w in 0..table.len() {
        table[w][below as usize] += 1;
        below = next_below(block, w as u64, below);
    }
}

// From the number of the block's points below `w` that of its points below `w + 1`.
fn next_below(block: &Block, w: u64, below: u64) -> u64
    requires count { below ≡ length (cut w block.now) }
    requires short { below ≤ 25 }
    ensures count { result ≡ length (cut (w + 1) block.now) }
    ensures short { result ≤ 25 }
{
    if below < block.len() && u64::from(block.at(below)) == w {
        below + 1
    } else {
        below
    }
}

fn zero_rows<const N: usize>(alloc: Global, n: usize) -> Result<Vec<[u32; N]>, Memory>
    ensures { IfOk result (λ rows. rows.items ≡ replicate n (replicate N 0)) }
{
    let mut rows = Vec::with_capacity(alloc, n)?;
    for _row in 0..n {
        rows.push_reserved([0; N]);
    }
    Ok(rows)
}
