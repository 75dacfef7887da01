ghost use Rattle.std.specs.Prelude.{◌≡◌, ◌<◌, ◌≤◌, ℕ, [], ◌∷◌, ◌++◌, length, OnErr, OnOk};
ghost use Rattle.lj_base.specs.Blocks.{Ascends};
ghost use Rattle.lj_text.specs.Fields.{Extends};
ghost use Rattle.lj_blockfile.specs.BlockFiles.{blocks_text};
ghost use Rattle.lj_blockfile.specs.BlockLines.{IsBlockLine, block_line};

use crate::laws::block_line_law;
use lj_base::{Block, Memory};
use lj_text::{cut_back, put, put_number, put_number_field};

/// Appends the block's line: its points from 1, ascending, with one space between each two, and LF.
pub fn write_block(block: &Block, out: &mut Vec<u8>) -> Result<(), Memory>
    ensures ok { OnOk result (out.new.items ≡ out.old.items ++ block_line block.now ++ 10 ∷ []) }
    ensures err { OnErr result (out.new.items ≡ out.old.items) }

    // The line reads back as the block.
    ensures reads_back { (v : ℕ) → 0 < length block.now → Ascends 0 v block.now → v ≤ 99
        → IsBlockLine (block_line block.now) v (length block.now) block.now }
{
    block_line_law();
    let start = out.len();
    let result = append_line(block, out);
    cut_back(out, start, result)
}

// Appends the line; where memory ran out a part of it may have been appended.
fn append_line(block: &Block, out: &mut Vec<u8>) -> Result<(), Memory>
    ensures ok { OnOk result (out.new.items ≡ out.old.items ++ block_line block.now ++ 10 ∷ []) }
    ensures err { OnErr result (Extends out.old.items out.new.items) }
{
    for i in 0..block.len() {
        let number = block.at(i) as u64 + 1;
        if i > 0 {
            put_number_field(out, number)?;
        } else {
            put_number(out, number)?;
        }
    }
    put(out, b"\n")
}

/// Appends the line of each block, in order.
pub fn put_blocks(blocks: &[Block], out: &mut Vec<u8>) -> Result<(), Memory>
    ensures ok { OnOk result (out.new.items ≡ out.old.items ++ blocks_text blocks.now) }
    ensures err { OnErr result (out.new.items ≡ out.old.items) }
{
    let start = out.len();
    let result = append_blocks(blocks, out);
    cut_back(out, start, result)
}

// Appends a line for each block; where memory ran out a part of them may have been appended.
fn append_blocks(blocks: &[Block], out: &mut Vec<u8>) -> Result<(), Memory>
    ensures ok { OnOk result (out.new.items ≡ out.old.items ++ blocks_text blocks.now) }
    ensures err { OnErr result (Extends out.old.items out.new.items) }
{
    for block in blocks {
        write_block(block, out)?;
    }
    Ok(())
}
