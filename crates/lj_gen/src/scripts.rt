ghost use Rattle.std.specs.Prelude.{◌≡◌, ◌-◌, ◌*◌, ◌^◌, ◌≤◌, [], ◌∷◌, ◌++◌, IfOk, OnOk, length};
ghost use Rattle.std.specs.List.{AllPairs};
ghost use Rattle.lj_base.specs.Blocks.{Covers};
ghost use Rattle.lj_text.specs.Lines.{with_feeds};
ghost use Rattle.lj_blockfile.specs.BlockFiles.{AreBlocksOf, blocks_text};
ghost use Rattle.lj_script.specs.Scripts.{IsScript};
ghost use Rattle.lj_gen.specs.Generated.{cell_line, gen_text, gen_value, head_lines, tail_lines, upload_cell};
ghost use Rattle.lj_gen.specs.Quadruples.{IsLexicographicallyBefore, gen_blocks};

use crate::laws::{generated_law, quadruples_law};
use crate::limits::{MAX_DIMENSION, MIN_DIMENSION};
use crate::quadruples::put_quadruples;
use lj_base::{Cell, Memory};
use lj_text::{fields_law, put, put_named};
use std::alloc::Global;

/// The script for `V = 2 ^ m` points: the frame `V K 3` with K the lesser of 6 and V, and one client, which uploads the
/// quadruples of points from 0 with xor 0 as a covering, in lexicographic order, settles, and asks for the bounds of
/// (V,4,3) and (V-1,3,2). There are `V (V-1) (V-2) / 24` blocks. It takes about four times as many steps.
pub fn gen_script(alloc: Global, m: u64) -> Result<Vec<u8>, Memory>
    requires low { MIN_DIMENSION ≤ m }
    requires high { m ≤ MAX_DIMENSION }
    ensures text { IfOk result (λ text. text.items ≡ gen_text m) }

    // The text is a script, and its body holds the blocks.
    ensures script { IsScript (gen_text m) (gen_value m) }
    ensures blocks { AreBlocksOf (blocks_text (gen_blocks m)) (2 ^ m) 4 (gen_blocks m) }

    // The blocks are in order, as many as stated, and each three points are in the block with their xor.
    ensures order { AllPairs IsLexicographicallyBefore (gen_blocks m) }
    ensures number { 24 * length (gen_blocks m) ≡ 2 ^ m * (2 ^ m - 1) * (2 ^ m - 2) }
    ensures covers { Covers (gen_blocks m) (record { v = 2 ^ m; k = 4; t = 3 }) }
{
    generated_law();
    quadruples_law();
    script_text(alloc, m)
}

// The text of the script.
fn script_text(alloc: Global, m: u64) -> Result<Vec<u8>, Memory>
    requires low { MIN_DIMENSION ≤ m }
    requires high { m ≤ MAX_DIMENSION }
    ensures { IfOk result (λ text. text.items ≡ gen_text m) }
{
    let v = point_count(m);
    let mut text = Vec::new(alloc);
    put_head(v, &mut text)?;
    put_quadruples(v, &mut text)?;
    put_tail(v, &mut text)?;
    Ok(text)
}

// The number of points.
fn point_count(m: u64) -> u8
    requires low { MIN_DIMENSION ≤ m }
    requires high { m ≤ MAX_DIMENSION }
    ensures count { result ≡ 2 ^ m }
    ensures some { 4 ≤ result }
    ensures few { result ≤ 64 }
{
    1 << m
}

// Appends the lines before the blocks.
fn put_head(v: u8, out: &mut Vec<u8>) -> Result<(), Memory>
    requires low { 4 ≤ v }
    requires high { v ≤ 99 }
    ensures { OnOk result (out.new.items ≡ out.old.items ++ with_feeds (head_lines v)) }
{
    let k = 6.min(v);
    put_cell(b"frame", Cell { v, k, t: 3 }, out)?;
    put(out, b"client gen\n")?;
    put_cell(b"upload", Cell { v, k: 4, t: 3 }, out)
}

// Appends the lines after the blocks.
fn put_tail(v: u8, out: &mut Vec<u8>) -> Result<(), Memory>
    requires low { 4 ≤ v }
    requires high { v ≤ 99 }
    ensures { OnOk result (out.new.items ≡ out.old.items ++ with_feeds (tail_lines v)) }
{
    let derived = Cell {
        v: v - 1,
        k: 3,
        t: 2,
    };
    put(out, b"end\nsettle\n")?;
    put_cell(b"bound", Cell { v, k: 4, t: 3 }, out)?;
    put_cell(b"bound", derived, out)
}

// Appends the line of a word and a cell's numbers.
fn put_cell(word: &[u8], cell: Cell, out: &mut Vec<u8>) -> Result<(), Memory>
    ensures { OnOk result (out.new.items ≡ out.old.items ++ (cell_line word.now cell ++ 10 ∷ [])) }
{
    fields_law();
    put_named(
        out,
        word,
        &[u64::from(cell.v), u64::from(cell.k), u64::from(cell.t)],
    )?;
    put(out, b"\n")
}

#[cfg(test)]
mod tests {
    use super::*;
    use lj_blockfile::read_blocks;
    use lj_script::{Command, read_script};
    use std::test::Fail;

    const EIGHT: &[u8] = b"1 2 3 4
1 2 5 6
1 2 7 8
1 3 5 7
1 3 6 8
1 4 5 8
1 4 6 7
2 3 5 8
2 3 6 7
2 4 5 7
2 4 6 8
3 4 5 6
3 4 7 8
5 6 7 8
";

    #[test]
    fn four_points_are_one_block(rt: HostRuntime) -> Result<(), Fail> {
        let text = gen_script(rt.alloc(), 2)?;
        let expected =
            b"frame 4 4 3\nclient gen\nupload 4 4 3\n1 2 3 4\nend\nsettle\nbound 4 4 3\nbound 3 3 2\n";
        assert!(rt; text.as_slice() == expected.as_slice());
        Ok(())
    }

    #[test]
    fn the_text_reads_back(rt: HostRuntime) -> Result<(), Fail> {
        let alloc = rt.alloc();
        let text = gen_script(alloc, 3)?;
        let script = read_script(alloc, &text)?;
        assert_eq!(rt; script.frame.top, Cell { v: 8, k: 6, t: 3 });
        let sections = script.sections();
        assert_eq!(rt; sections.len(), 1);
        let section = &sections[0];
        assert!(rt; section.name.bytes() == b"gen".as_slice());
        let commands = section.commands();
        assert_eq!(rt; commands.len(), 4);
        match &commands[0] {
            Command::Upload { cell, body } => {
                assert_eq!(rt; *cell, Cell { v: 8, k: 4, t: 3 });
                assert!(rt; body.items() == EIGHT);
                let blocks = read_blocks(alloc, body.items(), 8, 4)?;
                assert_eq!(rt; blocks.len(), 14);
            }
            _ => assert!(rt; false),
        }
        match (&commands[1], &commands[2], &commands[3]) {
            (Command::Settle, Command::Bound { cell: whole }, Command::Bound { cell: derived }) => {
                assert_eq!(rt; *whole, Cell { v: 8, k: 4, t: 3 });
                assert_eq!(rt; *derived, Cell { v: 7, k: 3, t: 2 });
            }
            _ => assert!(rt; false),
        }
        Ok(())
    }

    // The number of block lines: all but seven lines.
    fn block_lines(alloc: Global, m: u64) -> Result<usize, Memory>
        requires low { MIN_DIMENSION ≤ m }
        requires high { m ≤ MAX_DIMENSION }
    {
        let text = gen_script(alloc, m)?;
        let lines = text.iter().filter(|byte| **byte == b'\n').count();
        Ok(lines.saturating_sub(7))
    }

    #[test]
    fn the_number_of_blocks_is_as_stated(rt: HostRuntime) -> Result<(), Fail> {
        let alloc = rt.alloc();
        assert_eq!(rt; block_lines(alloc, 3)?, 14);
        assert_eq!(rt; block_lines(alloc, 4)?, 140);
        assert_eq!(rt; block_lines(alloc, 5)?, 1240);
        assert_eq!(rt; block_lines(alloc, 6)?, 10416);
        Ok(())
    }
}
