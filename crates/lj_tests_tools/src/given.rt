ghost use Rattle.std.specs.Prelude.{◌≡◌, ◌≤◌, IfOk};
ghost use Rattle.lj_base.specs.Blocks.{AreBlocks};

use lj_base::{Block, Cell};
use lj_blockfile::{read_blocks, write_block};
use lj_cover::Design;
use lj_excess::Counts;
use lj_verify::check_plain;
use std::alloc::Global;
use std::test::Fail;

/// The blocks of the lines.
pub fn read(alloc: Global, cell: Cell, lines: &[u8]) -> Result<Vec<Block>, Fail>
    requires { 1 ≤ cell.k }
    ensures { IfOk result (λ blocks. AreBlocks cell.v cell.k blocks.items) }
{
    match read_blocks(alloc, lines, cell.v as u64, cell.k as u64) {
        Ok(blocks) => Ok(blocks),
        Err(_) => Err("no blocks".into()),
    }
}

/// The design of the lines, which cover.
pub fn design_of(alloc: Global, cell: Cell, lines: &[u8]) -> Result<Design, Fail>
    requires { 1 ≤ cell.k }
{
    let blocks = read(alloc, cell, lines)?;
    match check_plain(alloc, cell, blocks) {
        Ok(design) => Ok(design),
        Err(_) => Err("no covering".into()),
    }
}

/// The lines of blocks that are masks of points.
pub fn lines_of(alloc: Global, masks: &[u64]) -> Result<Vec<u8>, Fail> {
    let mut lines = Vec::new(alloc);
    for mask in masks {
        let mut block = Block::empty();
        for p in 0..16u8 {
            if (*mask >> p) & 1 == 1 && block.len() < 25 {
                block.insert(p);
            }
        }
        write_block(&block, &mut lines)?;
    }
    Ok(lines)
}

/// The counts of a design.
pub fn counts_of(alloc: Global, design: &Design) -> Result<Counts, Fail> {
    if design.blocks().len() >= 1 << 32 {
        return Err("too many blocks".into());
    }
    match Counts::of(alloc, design) {
        Ok(counts) => Ok(counts),
        Err(_) => Err("no counts".into()),
    }
}

/// The lines of a design's blocks.
pub fn lines_of_design(alloc: Global, design: &Design) -> Result<Vec<u8>, Fail> {
    let mut lines = Vec::new(alloc);
    for block in design.blocks() {
        write_block(block, &mut lines)?;
    }
    Ok(lines)
}
