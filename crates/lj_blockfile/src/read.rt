ghost use Rattle.std.specs.Prelude.{◌≡◌, ℕ, suc, ◌<◌, ◌≤◌, IfErr, IfOk, IfSome, List, MatchResult, None, OnOk, Some};
ghost use Rattle.std.specs.Prelude.{length, map};
ghost use Rattle.std.specs.Result.{result_err};
ghost use Rattle.lj_base.specs.Blocks.{AreBlocks};
ghost use Rattle.lj_text.specs.Lines.{text_lines};
ghost use Rattle.lj_text.specs.Numbers.{number_of};
ghost use Rattle.lj_text.specs.Tokens.{IsTokenOf, token_text};
ghost use Rattle.lj_blockfile.specs.BlockFiles.{AreBlocksOf, HasLineNumber, IsBodyFault};
ghost use Rattle.lj_blockfile.specs.BlockLines.{AddsPoint, IsBlockLine, line_fault, token_fault};

use crate::ascending::ascending_block;
use crate::faults::{BodyFault, LineFault};
use lj_base::{Block, MAX_BLOCKS};
use lj_text::{Lines, Token, Tokens, line_numbers_law, number};
use std::alloc::Global;

/// The block of a line: `k` different points from 1 to `v`, in any order. It goes over a line that is just as its block
/// is written once, and over any other twice at most; it takes no memory.
pub fn read_block(line: &[u8], v: u64, k: u64) -> Result<Block, LineFault>
    requires some { 1 ≤ k }
    requires small { k ≤ 25 }
    requires few { k ≤ v }
    requires below { v ≤ 99 }
    ensures block { IfOk result (IsBlockLine line.now v k) }
    ensures no_fault { IfOk result (λ _. line_fault v k line.now ≡ None) }
    ensures fault { IfErr result (λ fault. line_fault v k line.now ≡ Some fault) }
    ensures complete { (b : List ℕ) → IsBlockLine line.now v k b → result ≡ Ok b }
{
    match ascending_block(line, v, k) {
        Some(block) => Ok(block),
        None => block_of_tokens(line, v, k),
    }
}

// The block of any line, token by token.
fn block_of_tokens(line: &[u8], v: u64, k: u64) -> Result<Block, LineFault>
    requires some { 1 ≤ k }
    requires small { k ≤ 25 }
    requires few { k ≤ v }
    requires below { v ≤ 99 }
    ensures block { IfOk result (IsBlockLine line.now v k) }
    ensures no_fault { IfOk result (λ _. line_fault v k line.now ≡ None) }
    ensures fault { IfErr result (λ fault. line_fault v k line.now ≡ Some fault) }
    ensures complete { (b : List ℕ) → IsBlockLine line.now v k b → result ≡ Ok b }
{
    let mut block = Block::empty();
    let mut count = 0;
    for token in Tokens::of(line) {
        if block.len() < k {
            add_point(&mut block, line, &token, v)?;
        }
        count += 1;
    }
    if block.len() < k {
        Err(LineFault::Short { count })
    } else if count > k {
        Err(LineFault::Long { count })
    } else {
        Ok(block)
    }
}

// Adds the point that a token spells.
fn add_point(block: &mut Block, line: &[u8], token: &Token, v: u64) -> Result<(), LineFault>
    requires inside { IsTokenOf line.now token.now }
    requires room { length block.old < 25 }
    requires below { v ≤ 99 }
    ensures added { OnOk result (IfSome (number_of (token_text line.now token.now)) (AddsPoint block.old block.new)) }
    ensures fault { result_err result
        ≡ token_fault v (map suc block.old) token.now (number_of (token_text line.now token.now)) }
{
    let Ok(value) = number(&line[token.start as usize..token.stop as usize]) else {
        return Err(LineFault::NotNumber {
            column: token.column,
        });
    };
    if value < 1 || value > v {
        return Err(LineFault::PointRange { value });
    }
    if !block.insert((value - 1) as u8) {
        return Err(LineFault::Repeat { point: value });
    }
    Ok(())
}

/// The blocks of a text, one for each line that is not blank. It goes over the text once, and once more to count its
/// lines where one has a fault or they are too many; memory is taken once.
pub fn read_blocks(alloc: Global, body: &[u8], v: u64, k: u64) -> Result<Vec<Block>, BodyFault>
    requires some { 1 ≤ k }
    requires small { k ≤ 25 }
    requires few { k ≤ v }
    requires below { v ≤ 99 }
    ensures blocks { IfOk result (λ blocks. AreBlocksOf body.now v k blocks.items) }
    ensures shape { IfOk result (λ blocks. AreBlocks v k blocks.items) }
    ensures few { IfOk result (λ blocks. length blocks.items ≤ MAX_BLOCKS) }
    ensures fault { IfErr result (IsBodyFault body.now v k) }
    ensures line { IfErr result (HasLineNumber body.now) }

    // Where it holds blocks, the only error is that memory ran out.
    ensures complete { (bs : List (List ℕ)) → AreBlocksOf body.now v k bs →
        MatchResult result (λ blocks. blocks.items ≡ bs) (λ fault. fault ≡ BodyFault.Memory) }
{
    line_numbers_law();
    // A block's line has a digit and one more byte for each point, but for the last line.
    let most = body.len() / (2 * k as usize) + 1;
    let Ok(mut blocks) = Vec::with_capacity(alloc, most.min(MAX_BLOCKS as usize)) else {
        return Err(BodyFault::Memory);
    };
    for line in Lines::of(body) {
        if blocks.len() as u64 >= MAX_BLOCKS {
            return Err(BodyFault::Blocks {
                n: line_count(body),
            });
        }
        let text = &body[line.start as usize..line.stop as usize];
        let block = match read_block(text, v, k) {
            Ok(block) => block,
            Err(fault) => {
                let lines = line_count(body);
                if lines > MAX_BLOCKS {
                    return Err(BodyFault::Blocks { n: lines });
                }
                return Err(BodyFault::Line {
                    number: line.number,
                    fault,
                });
            }
        };
        if blocks.push(block).is_err() {
            return Err(BodyFault::Memory);
        }
    }
    Ok(blocks)
}

// How many lines are not blank.
fn line_count(body: &[u8]) -> u64
    ensures { result ≡ length (text_lines body.now) }
{
    Lines::of(body).count() as u64
}
