ghost use Rattle.std.specs.Prelude.{◌≡◌, ℕ, ◌+◌, ◌≤◌, [], ◌∷◌, ◌++◌, drop, take, length, IfOk, IfSome, IsNone, List};
ghost use Rattle.std.specs.Prelude.{Ok, OnErr, OnOk, Some};
ghost use Rattle.std.specs.List.{AllByRecursion};
ghost use Rattle.lj_base.specs.Blocks.{AreBlocks};
ghost use Rattle.lj_text.specs.Fields.{Extends};
ghost use Rattle.lj_text.specs.Lines.{IsLineNumber, after_line};
ghost use Rattle.lj_text.specs.Numbers.{Spells, number_of};
ghost use Rattle.lj_text.specs.Tokens.{IsTokenOf, token_text, tokens_of};
ghost use Rattle.lj_blockfile.specs.BlockFiles.{AreBlocksOf};
ghost use Rattle.lj_blockfile.specs.Headers.{IsHeader, file_text, header_line};

use crate::laws::file_law;
use crate::write::put_blocks;
use lj_base::{Block, Cell, MAX_BLOCKS, Memory};
use lj_text::{Lines, Tokens, after_line, cut_back, line_numbers_law, number, put, put_joined};
use thiserror::Error;

/// The first line of a block file: its cell, the number of its blocks, the line's number from 1 with blank lines
/// counted, and the place of the first byte after it.
#[derive(Clone, Copy, Debug, PartialEq, Eq)]
pub struct Header {
    pub cell: Cell,
    pub n: u64,
    pub line: u64,
    pub rest: u64,
}

/// A text whose first line is no header, or that has no line.
#[derive(Clone, Copy, Debug, PartialEq, Eq, Error)]
#[error("no header")]
pub struct NoHeader;

/// The header of a block file: four numbers on the first line that is not blank, V, K and T of a cell with K of 1 or
/// more, and the number of blocks. It looks at no further line, and takes no memory.
pub fn read_header(body: &[u8]) -> Result<Header, NoHeader>
    ensures header { IfOk result (IsHeader body.now) }
    ensures within { IfOk result (λ header. header.rest ≤ length body.now) }
    ensures line { IfOk result (λ header. IsLineNumber body.now header.line) }
    ensures complete { (header : Header) → IsHeader body.now header → result ≡ Ok header }
{
    line_numbers_law();
    let first = Lines::of(body).next().ok_or(NoHeader)?;
    let text = &body[first.start as usize..first.stop as usize];
    let [v, k, t, n] = four_numbers(text).ok_or(NoHeader)?;
    let cell = Cell::new(v, k, t).map_err(|_| NoHeader)?;
    if cell.k == 0 {
        return Err(NoHeader);
    }
    Ok(Header {
        cell,
        n,
        line: first.number,
        rest: after_line(body, &first),
    })
}

// The numbers of a line of four.
fn four_numbers(line: &[u8]) -> Option<[u64; 4]>
    ensures some { IfSome result (Spells line.now (tokens_of line.now)) }
    ensures none { (a b c d : ℕ) → Spells line.now (tokens_of line.now) (a ∷ b ∷ c ∷ d ∷ []) →
        result ≡ Some (a ∷ b ∷ c ∷ d ∷ []) }
{
    let mut tokens = Tokens::of(line);
    let a = next_number(line, &mut tokens)?;
    let b = next_number(line, &mut tokens)?;
    let c = next_number(line, &mut tokens)?;
    let d = next_number(line, &mut tokens)?;
    match tokens.next() {
        Some(_) => None,
        None => Some([a, b, c, d]),
    }
}

// The number that the next token spells.
fn next_number(line: &[u8], tokens: &mut Tokens) -> Option<u64>
    requires { AllByRecursion (IsTokenOf line.now) tokens.old }
    ensures inside { AllByRecursion (IsTokenOf line.now) tokens.new }
    ensures some { IfSome result (λ n. (ns : List ℕ) → Spells line.now tokens.new ns →
        Spells line.now tokens.old (n ∷ ns)) }
    ensures none { (n : ℕ) (ns : List ℕ) → Spells line.now tokens.old (n ∷ ns) →
        (result ≡ Some n) × Spells line.now tokens.new ns }
{
    let token = tokens.next()?;
    number(&line[token.start as usize..token.stop as usize]).ok()
}

/// Appends a block file: the header's line and a line for each block. What it appends reads back.
pub fn write_file(cell: Cell, blocks: &[Block], out: &mut Vec<u8>) -> Result<(), Memory>
    requires some { 1 ≤ cell.k }
    requires few { length blocks.now ≤ MAX_BLOCKS }
    requires blocks { AreBlocks cell.v cell.k blocks.now }
    ensures ok { OnOk result (out.new.items ≡ out.old.items ++ file_text cell blocks.now) }
    ensures err { OnErr result (out.new.items ≡ out.old.items) }
    ensures header { IsHeader (file_text cell blocks.now) (record {
      cell = cell;
      n = length blocks.now;
      line = 1;
      rest = length (header_line cell (length blocks.now)) + 1;
    }) }
    ensures reads_back { AreBlocksOf
        (drop (length (header_line cell (length blocks.now)) + 1) (file_text cell blocks.now))
        cell.v cell.k blocks.now }
{
    file_law();
    let start = out.len();
    let result = append_file(cell, blocks, out);
    cut_back(out, start, result)
}

// Appends the file; where memory ran out a part of it may have been appended.
fn append_file(cell: Cell, blocks: &[Block], out: &mut Vec<u8>) -> Result<(), Memory>
    ensures ok { OnOk result (out.new.items ≡ out.old.items ++ file_text cell blocks.now) }
    ensures err { OnErr result (Extends out.old.items out.new.items) }
{
    let numbers = [
        u64::from(cell.v),
        u64::from(cell.k),
        u64::from(cell.t),
        blocks.len() as u64,
    ];
    put_joined(out, b' ', &numbers)?;
    put(out, b"\n")?;
    put_blocks(blocks, out)
}

#[cfg(test)]
mod tests {
    use super::*;
    use crate::read_blocks;
    use std::test::Fail;

    #[test]
    fn a_header_is_four_numbers_that_name_a_cell(rt: HostRuntime) {
        for (body, line, rest) in [
            (b"5 3 2 4\n1 2 3\n".as_slice(), 1, 8),
            (b"\r\n 5\t3 2 4 \r\n1 2 3\n".as_slice(), 2, 13),
            (b"5 3 2 4".as_slice(), 1, 7),
        ] {
            match read_header(body) {
                Ok(header) => {
                    assert!(rt; header.cell.v == 5 && header.cell.k == 3 && header.cell.t == 2);
                    assert!(rt; header.n == 4 && header.line == line && header.rest == rest);
                }
                Err(NoHeader) => assert!(rt; false),
            }
        }
        for body in [
            b"".as_slice(),
            b"\n \n".as_slice(),
            b"5 3\n".as_slice(),
            b"5 3 2 4 1\n".as_slice(),
            b"5 0 0 1\n".as_slice(),
            b"3 5 2 1\n".as_slice(),
            b"5 x 2 4\n".as_slice(),
        ] {
            assert!(rt; read_header(body).is_err());
        }
    }

    #[test]
    fn a_file_is_its_header_and_its_blocks(rt: HostRuntime) -> Result<(), Fail> {
        let alloc = rt.alloc();
        let lines = b"1 2 3\n1 4 5\n2 4 5\n3 4 5\n".as_slice();
        let blocks = read_blocks(alloc, lines, 5, 3)?;
        let mut file = Vec::new(alloc);
        write_file(Cell { v: 5, k: 3, t: 2 }, &blocks, &mut file)?;
        assert!(rt; file.as_slice() == b"5 3 2 4\n1 2 3\n1 4 5\n2 4 5\n3 4 5\n".as_slice());
        Ok(())
    }
}
