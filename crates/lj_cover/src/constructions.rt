ghost use Rattle.std.specs.Prelude.{◌≡◌, ◌+◌, ◌-◌, ◌<◌, ◌≤◌, ◌++◌, IfOk, OnErr, OnOk, length, map};
ghost use Rattle.std.specs.Prelude.{vec_capacity, vec_len};
ghost use Rattle.lj_base.specs.Blocks.{AllBelow};
ghost use Rattle.lj_cover.specs.Operations.{unite};
ghost use Rattle.lj_cover.specs.BlockLists.{add_blocks, derived_blocks, derived2_blocks, drop_blocks, grow_blocks};
ghost use Rattle.lj_cover.specs.BlockLists.{join_blocks};
ghost use Rattle.lj_cover.specs.Rules.{triple};

use crate::counts::has_both;
use crate::designs::Design;
use crate::operations::{add_point, drop_last, fill, unite, without};
use lj_base::{Block, Memory};
use std::alloc::Global;

/// Covers with one point less: point `v - 1` is removed where it is in a block, and the block is filled.
pub fn drop_design(alloc: Global, d: &Design) -> Result<Design, Memory>
    requires room { d.now.cell.k < d.now.cell.v }
    requires points { 2 ≤ d.now.cell.v }
    ensures cell { IfOk result (λ r. r.cell ≡ triple (d.now.cell.v - 1) d.now.cell.k d.now.cell.t) }
    ensures blocks { IfOk result (λ r. r.blocks ≡ drop_blocks (d.now.cell.v - 1) d.now.blocks) }
{
    let cell = d.cell();
    let v = u64::from(cell.v) - 1;
    let mut blocks = Vec::with_capacity(alloc, d.blocks().len())?;
    for b in d.blocks() {
        blocks.push_reserved(drop_last(*b, v));
    }
    Ok(Design::of(cell.dropped(), blocks))
}

/// Covers with one point more, which is added to each block.
pub fn add_design(alloc: Global, d: &Design) -> Result<Design, Memory>
    requires points { d.now.cell.v < 99 }
    requires short { d.now.cell.k < 25 }
    ensures cell { IfOk result (λ r. r.cell ≡ triple (d.now.cell.v + 1) (d.now.cell.k + 1) d.now.cell.t) }
    ensures blocks { IfOk result (λ r. r.blocks ≡ add_blocks d.now.cell.v d.now.blocks) }
{
    let cell = d.cell();
    let mut blocks = Vec::with_capacity(alloc, d.blocks().len())?;
    for b in d.blocks() {
        blocks.push_reserved(add_point(*b, cell.v));
    }
    Ok(Design::of(cell.added(), blocks))
}

/// Covers with blocks of one point more: each gets its least missing point.
pub fn grow_design(alloc: Global, d: &Design) -> Result<Design, Memory>
    requires room { d.now.cell.k < d.now.cell.v }
    requires short { d.now.cell.k < 25 }
    ensures cell { IfOk result (λ r. r.cell ≡ triple d.now.cell.v (d.now.cell.k + 1) d.now.cell.t) }
    ensures blocks { IfOk result (λ r. r.blocks ≡ grow_blocks (d.now.cell.k + 1) d.now.blocks) }
{
    let cell = d.cell();
    let k = u64::from(cell.k) + 1;
    let mut blocks = Vec::with_capacity(alloc, d.blocks().len())?;
    for b in d.blocks() {
        blocks.push_reserved(fill(*b, u64::from(cell.v), k));
    }
    Ok(Design::of(cell.grown(), blocks))
}

/// Covers, by the same blocks, the sets of one point less.
pub fn lower_design(alloc: Global, d: &Design) -> Result<Design, Memory>
    requires { 1 ≤ d.now.cell.t }
    ensures cell { IfOk result (λ r. r.cell ≡ triple d.now.cell.v d.now.cell.k (d.now.cell.t - 1)) }
    ensures blocks { IfOk result (λ r. r.blocks ≡ d.now.blocks) }
{
    let blocks = d.blocks().to_vec(alloc)?;
    Ok(Design::of(d.cell().lowered(), blocks))
}

/// Covers with one point less by the blocks through point `x`, without it.
pub fn derive_design(alloc: Global, d: &Design, x: u8) -> Result<Design, Memory>
    requires sets { 1 ≤ d.now.cell.t }
    requires points { 2 ≤ d.now.cell.v }
    requires inside { x < d.now.cell.v }
    ensures cell { IfOk result (λ r. r.cell ≡ triple (d.now.cell.v - 1) (d.now.cell.k - 1) (d.now.cell.t - 1)) }
    ensures blocks { IfOk result (λ r. r.blocks ≡ derived_blocks x d.now.blocks) }
{
    let mut blocks = Vec::with_capacity(alloc, d.blocks().len())?;
    for b in d.blocks() {
        if b.has(x) {
            blocks.push_reserved(without(*b, x));
        }
    }
    Ok(Design::of(d.cell().derived(1), blocks))
}

/// Covers with two points less by the blocks through points `x` and `y`, without them.
pub fn derive2_design(alloc: Global, d: &Design, x: u8, y: u8) -> Result<Design, Memory>
    requires sets { 2 ≤ d.now.cell.t }
    requires points { 3 ≤ d.now.cell.v }
    requires order { x < y }
    requires inside { y < d.now.cell.v }
    ensures cell { IfOk result (λ r. r.cell ≡ triple (d.now.cell.v - 2) (d.now.cell.k - 2) (d.now.cell.t - 2)) }
    ensures blocks { IfOk result (λ r. r.blocks ≡ derived2_blocks x y d.now.blocks) }
{
    let mut blocks = Vec::with_capacity(alloc, d.blocks().len())?;
    for b in d.blocks() {
        if has_both(b, x, y) {
            blocks.push_reserved(without(without(*b, y), x));
        }
    }
    Ok(Design::of(d.cell().derived(2), blocks))
}

/// Appends the union of every block of `a` with every block of `b`, shifted up by `v1`; those of `b` run faster.
pub fn join_blocks(out: &mut Vec<Block>, a: &Design, b: &Design, v1: u64) -> Result<(), Memory>
    requires split { v1 ≡ a.now.cell.v }
    requires points { a.now.cell.v + b.now.cell.v ≤ 99 }
    requires short { a.now.cell.k + b.now.cell.k ≤ 25 }
    ensures ok { OnOk result (out.new.items ≡ out.old.items ++ join_blocks v1 a.now.blocks b.now.blocks) }
    ensures err { OnErr result (out.new.items ≡ out.old.items) }
{
    let count = a
        .blocks()
        .len()
        .checked_mul(b.blocks().len())
        .ok_or(Memory)?;
    out.reserve(count)?;
    for first in a.blocks() {
        append_unions(out, first, b, v1);
    }
    Ok(())
}

// Appends the union of one block with every block of `b`, into room that is there.
fn append_unions(out: &mut Vec<Block>, first: &Block, b: &Design, v1: u64)
    requires below { AllBelow v1 first.now }
    requires points { v1 + b.now.cell.v ≤ 99 }
    requires short { length first.now + b.now.cell.k ≤ 25 }
    requires room { vec_len out.old + length b.now.blocks ≤ vec_capacity out.old }
    ensures items { out.new.items ≡ out.old.items ++ map (unite v1 first.now) b.now.blocks }
    ensures len { vec_len out.new ≡ vec_len out.old + length b.now.blocks }
    ensures capacity { vec_capacity out.new ≡ vec_capacity out.old }
{
    for second in b.blocks() {
        out.push_reserved(unite(*first, *second, v1));
    }
}
