ghost use Rattle.std.specs.Prelude.{◌≡◌, ◌+◌, ◌<◌, ◌≤◌, ◌++◌, IfSome, decimal, length, take};
ghost use Rattle.lj_blockfile.specs.BlockLines.{IsBlockLine};

use crate::laws::block_line_law;
use lj_base::Block;

// Lines as blocks are written: the points ascend, with one space between each two and without leading zeros. Such a
// line is read byte by byte, with no search for its tokens.

// A number of one or two digits, and the place after it.
#[derive(Clone, Copy)]
struct Numeral {
    value: u8,
    end: usize,
}

/// The block of a line that is just as the block is written. Any other line gives `None`, also one that has a block.
pub(crate) fn ascending_block(line: &[u8], v: u64, k: u64) -> Option<Block>
    requires some { 1 ≤ k }
    requires small { k ≤ 25 }
    requires below { v ≤ 99 }
    ensures { IfSome result (IsBlockLine line.now v k) }
{
    block_line_law();
    let mut last = number_at(line, 0)?;
    let mut block = Block::empty();
    block.push(last.value - 1);
    while block.len() < k {
        if last.end >= line.len() || line[last.end] != b' ' {
            return None;
        }
        let next = number_at(line, last.end + 1)?;
        if next.value <= last.value {
            return None;
        }
        block.push(next.value - 1);
        last = next;
    }
    if last.end < line.len() || u64::from(last.value) > v {
        return None;
    }
    Some(block)
}

// The number from 1 to 99 at a place of the line: two digits where the second byte is one too.
#[inline(always)]
fn number_at(line: &[u8], at: usize) -> Option<Numeral>
    requires { at ≤ length line.now }
    ensures value { IfSome result (λ n. (1 ≤ n.value) × (n.value ≤ 99)) }
    ensures within { IfSome result (λ n. n.end ≤ length line.now) }
    ensures text { IfSome result (λ n. take n.end line.now ≡ take at line.now ++ decimal n.value) }
{
    if at >= line.len() {
        return None;
    }
    let first = line[at];
    if first < b'1' || first > b'9' {
        return None;
    }
    let value = first - b'0';
    let end = at + 1;
    if end < line.len() {
        let second = line[end];
        if second.is_ascii_digit() {
            return Some(Numeral {
                value: 10 * value + (second - b'0'),
                end: end + 1,
            });
        }
    }
    Some(Numeral { value, end })
}
