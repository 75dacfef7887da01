ghost use Rattle.std.specs.Prelude.{◌≡◌, ◌+◌, ◌≤◌, ℕ, List, drop, length};
ghost use Rattle.lj_base.specs.Blocks.{AreBlocks, IsBlock};
ghost use Rattle.lj_base.specs.Cells.{IsCell, Triple};
ghost use Rattle.lj_text.specs.Lines.{IsPlain};
ghost use Rattle.lj_blockfile.specs.BlockFiles.{AreBlocksOf, IsBodyFault, IsInputFault, blocks_text};
ghost use Rattle.lj_blockfile.specs.BlockLines.{IsBlockLine, block_line};
ghost use Rattle.lj_blockfile.specs.Headers.{IsHeader, file_text, header_line};
ghost use Rattle.lj_blockfile.specs.declared.faults.BodyFault.{BodyFault};
ghost use Rattle.lj_blockfile.specs.declared.headers.Header.{Header};

use lj_base::MAX_BLOCKS;
use lj_text::{lines_law, number_line_law};

/// The line of a block of one point or more is plain, and reads back.
pub fn block_line_law()
    ensures plain { (v k : ℕ) (b : List ℕ) → 1 ≤ k → v ≤ 99 → IsBlock v k b → IsPlain (block_line b) }
    ensures reads_back { (v k : ℕ) (b : List ℕ) → v ≤ 99 → IsBlock v k b → IsBlockLine (block_line b) v k b }
{
    number_line_law();
}

/// Blocks of one point or more read back: the text of their lines holds these blocks, in order.
pub fn written_law()
    ensures { (v k : ℕ) (bs : List (List ℕ)) → 1 ≤ k → v ≤ 99 → length bs ≤ MAX_BLOCKS → AreBlocks v k bs →
        AreBlocksOf (blocks_text bs) v k bs }
{
    block_line_law();
    lines_law();
}

/// The text of a file with a header reads back: its header, and after it these blocks, in order.
pub fn file_law()
    ensures header { (c : Triple) (bs : List (List ℕ)) → IsCell c → 1 ≤ c.k → length bs ≤ MAX_BLOCKS →
        IsHeader (file_text c bs) (record {
          cell = c;
          n = length bs;
          line = 1;
          rest = length (header_line c (length bs)) + 1;
        }) }
    ensures blocks { (c : Triple) (bs : List (List ℕ)) → IsCell c → 1 ≤ c.k → length bs ≤ MAX_BLOCKS →
        AreBlocks c.v c.k bs → AreBlocksOf (drop (length (header_line c (length bs)) + 1) (file_text c bs)) c.v c.k bs }
{
    written_law();
    number_line_law();
    lines_law();
}

/// A text has one reading: a line is that of one block at most; a text has one list of blocks at most, or one fault;
/// and it has one header at most.
pub fn one_reading_law()
    ensures line { (line : List ℕ) (v k : ℕ) (b c : List ℕ) → IsBlockLine line v k b → IsBlockLine line v k c → b ≡ c }
    ensures blocks { (body : List ℕ) (v k : ℕ) (bs cs : List (List ℕ)) → AreBlocksOf body v k bs →
        AreBlocksOf body v k cs → bs ≡ cs }
    ensures either { (body : List ℕ) (v k : ℕ) (bs : List (List ℕ)) (fault : BodyFault) → AreBlocksOf body v k bs →
        IsBodyFault body v k fault → IsInputFault fault → ⊥ }
    ensures fault { (body : List ℕ) (v k : ℕ) (one other : BodyFault) → IsBodyFault body v k one →
        IsBodyFault body v k other → IsInputFault one → IsInputFault other → one ≡ other }
    ensures header { (body : List ℕ) (one other : Header) → IsHeader body one → IsHeader body other → one ≡ other }
{}
