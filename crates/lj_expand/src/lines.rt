ghost use Rattle.std.specs.Prelude.{◌≡◌, ◌+◌, ◌*◌, ◌<◌, ◌≤◌, [], ◌∷◌, ◌++◌, decimal, length, take};
ghost use Rattle.lj_blockfile.specs.BlockFiles.{blocks_text};
ghost use Rattle.lj_blockfile.specs.BlockLines.{block_line};
ghost use Rattle.lj_expand.specs.Lines.{AreTexts, IsText};

use itoa::Buffer;
use lj_base::Block;

/// The texts of all points, from 1 to 99: two bytes for each, of which the first alone counts up to 9.
pub(crate) type PointTexts = [[u8; 2]; 99];

/// Makes the texts of all points.
pub(crate) fn point_texts() -> PointTexts
    ensures { AreTexts result }
{
    let mut texts = [[0; 2]; 99];
    for point in 0..99u8 {
        texts[point as usize] = text_of(point + 1);
    }
    texts
}

// The text of a number of one digit or two.
fn text_of(n: u8) -> [u8; 2]
    requires { n < 100 }
    ensures { IsText n result }
{
    let mut buffer = Buffer::new();
    let digits = buffer.format(n).as_bytes();
    if digits.len() > 1 {
        [digits[0], digits[1]]
    } else {
        [digits[0], 0]
    }
}

/// The most bytes of a line: 25 points of two digits, and a byte after each.
pub(crate) const LINE: usize = 75;

/// Writes a line for each of the blocks at the front of the text, and returns where they end. Each text of a point is
/// copied by its two bytes; what is too much is written over.
pub(crate) fn write_lines(blocks: &[Block], texts: &PointTexts, out: &mut [u8]) -> usize
    requires texts { AreTexts texts.now }
    requires room { LINE * length blocks.now ≤ length out.old }
    ensures end { result ≤ length out.new }
    ensures lines { take result out.new ≡ blocks_text blocks.now }
{
    let mut end = 0;
    for block in blocks {
        end = write_line(block, texts, out, end);
    }
    end
}

/// Writes the block's line at a place of the text, and returns where it ends: its points from 1, ascending, with one
/// space between each two, and LF.
pub(crate) fn write_line(block: &Block, texts: &PointTexts, out: &mut [u8], start: usize) -> usize
    requires texts { AreTexts texts.now }
    requires room { start + LINE ≤ length out.old }
    ensures end { result ≤ start + LINE }
    ensures len { length out.new ≡ length out.old }
    ensures line { take result out.new ≡ take start out.old ++ (block_line block.now ++ 10 ∷ []) }
{
    let mut end = start;
    for i in 0..block.len() {
        if i > 0 {
            out[end] = 32;
            end += 1;
        }
        let point = block.at(i);
        end = write_point(point, texts, out, end);
    }
    out[end] = 10;
    end + 1
}

// Writes the text of a point at a place, and returns where it ends.
fn write_point(point: u8, texts: &PointTexts, out: &mut [u8], start: usize) -> usize
    requires texts { AreTexts texts.now }
    requires in_range { point < 99 }
    requires room { start + 2 ≤ length out.old }
    ensures end { result ≤ start + 2 }
    ensures len { length out.new ≡ length out.old }
    ensures text { take result out.new ≡ take start out.old ++ decimal (point + 1) }
{
    let text = texts[point as usize];
    out[start] = text[0];
    out[start + 1] = text[1];
    if point < 9 { start + 1 } else { start + 2 }
}
