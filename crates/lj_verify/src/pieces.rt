ghost use Rattle.std.specs.Prelude.{◌+◌, ◌≤◌, length};
ghost use Rattle.lj_verify.specs.Marks.{IsRankIn, Marks};

use crate::limits::MAX_WORDS;
use crate::pairs::mark_sets;
use crate::strings::{SCRATCH, mark_by_strings};
use lj_base::Block;

// How many words are marked at a time, so that they stay in the processor's cache: 640 kB.
const PIECE: usize = 81920;

/// Marks the rank of each set of `t` points that a block contains, in words of which the first has the ranks from
/// `64 * start` on: by strings of the ranks of the blocks' sets of `size` points, or by runs of pairs where that is 0.
pub(crate) fn mark_pieces(words: &mut [u64], start: u64, blocks: &[Block], t: u64, size: u64)
    requires small { t ≤ 8 }
    requires few_words { start + length words.old ≤ MAX_WORDS }
    ensures { Marks start words.old words.new (IsRankIn blocks.now t) }
{
    let mut done = 0;
    while done < words.len() {
        let end = words.len().min(done + PIECE);
        mark_piece(&mut words[done..end], start + done as u64, blocks, t, size);
        done = end;
    }
}

// Marks one piece. The strings of its blocks are made one after another in the same words, on the stack.
fn mark_piece(words: &mut [u64], start: u64, blocks: &[Block], t: u64, size: u64)
    requires small { t ≤ 8 }
    requires few_words { start + length words.old ≤ MAX_WORDS }
    ensures { Marks start words.old words.new (IsRankIn blocks.now t) }
{
    if size == 0 || t <= size {
        return mark_sets(words, start, blocks, t);
    }
    let mut scratch = [0; SCRATCH];
    mark_by_strings(words, start, blocks, t, size, &mut scratch);
}
