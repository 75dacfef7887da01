ghost use Rattle.std.specs.Prelude.{◌≡◌, ◌⊎◌, ◌↔◌, ℕ, ◌*◌, ◌<◌, ◌≤◌, true, false, drop, length, replicate};
ghost use Rattle.std.specs.Prelude.{slice_index_or, take, IfOk, OnOk};
ghost use Rattle.lj_verify.specs.Marks.{IsRankIn, Marks};

use crate::bits::mark_prefix;
use crate::limits::{MAX_WORDS, MAX_WORKERS};
use crate::pieces::mark_pieces;
use crate::ranges::mark_ranges;
use lj_base::{Block, MAX_BLOCKS, MAX_SETS, Memory};
use lj_bitmap::RankMap;
use std::alloc::Global;
use std::thread;
use std::thread::Threads;

// The most words that the maps of all workers may take together: 64 MB.
const SHARED: usize = 1 << 23;

/// Marks the rank of each set of `t` points that a block contains.
pub(crate) fn mark_map<R: Threads + Sync>(
    rt: &R,
    alloc: Global,
    map: &mut RankMap,
    blocks: &[Block],
    t: u64,
    size: u64,
    workers: u64,
) -> Result<(), Memory>
    requires small { t ≤ 8 }
    requires few_ranks { length map.old ≤ MAX_SETS }
    requires few_blocks { length blocks.now ≤ MAX_BLOCKS }
    requires some_workers { 1 ≤ workers }
    requires few_workers { workers ≤ MAX_WORKERS }
    ensures count { OnOk result (length map.new ≡ length map.old) }
    ensures marks { OnOk result ((r : ℕ) → r < length map.old → (slice_index_or map.new r false ≡ true)
        ↔ ((slice_index_or map.old r false ≡ true) ⊎ IsRankIn blocks.now t r)) }
{
    mark_words(rt, alloc, map.words_mut(), blocks, t, size, workers)
}

// The work is split by the blocks where each worker can have a map of its own, else by the ranks.
fn mark_words<R: Threads + Sync>(
    rt: &R,
    alloc: Global,
    words: &mut [u64],
    blocks: &[Block],
    t: u64,
    size: u64,
    workers: u64,
) -> Result<(), Memory>
    requires small { t ≤ 8 }
    requires few_words { length words.old ≤ MAX_WORDS }
    requires few_blocks { length blocks.now ≤ MAX_BLOCKS }
    requires some_workers { 1 ≤ workers }
    requires few_workers { workers ≤ MAX_WORKERS }
    ensures { OnOk result (Marks 0 words.old words.new (IsRankIn blocks.now t)) }
{
    if workers > 1 && words.len() <= SHARED / workers as usize {
        return mark_shares(rt, alloc, words, blocks, t, size, workers);
    }
    mark_ranges(rt, blocks, t, size, workers, 0, words);
    Ok(())
}

/// Each worker marks its share of the blocks in a map of its own, and the maps are joined.
pub(crate) fn mark_shares<R: Threads + Sync>(
    rt: &R,
    alloc: Global,
    words: &mut [u64],
    blocks: &[Block],
    t: u64,
    size: u64,
    workers: u64,
) -> Result<(), Memory>
    requires small { t ≤ 8 }
    requires few_words { length words.old ≤ MAX_WORDS }
    requires few_blocks { length blocks.now ≤ MAX_BLOCKS }
    requires some_workers { 1 ≤ workers }
    requires few_workers { workers ≤ MAX_WORKERS }
    ensures { OnOk result (Marks 0 words.old words.new (IsRankIn blocks.now t)) }
{
    let len = words.len();
    let count = workers as usize;
    let share = blocks.len().div_ceil(count);
    let maps = thread::map_indices(
        rt,
        alloc,
        count,
        &|i| { map_of_share(alloc, len, blocks, i, share, t, size) },
    )?;
    for i in 0..count {
        let Ok(map) = &maps[i] else {
            return Err(Memory);
        };
        mark_prefix(words, 0, 0, map, 64 * len as u64);
    }
    Ok(())
}

// A map of `len` words, with the ranks of the sets of `t` points of one share of the blocks.
fn map_of_share(
    alloc: Global,
    len: usize,
    blocks: &[Block],
    i: usize,
    share: usize,
    t: u64,
    size: u64,
) -> Result<Vec<u64>, Memory>
    requires small { t ≤ 8 }
    requires few_words { len ≤ MAX_WORDS }
    requires few_shares { i ≤ MAX_WORKERS }
    requires few_blocks { share ≤ MAX_BLOCKS }
    ensures { IfOk result (λ map.
        Marks 0 (replicate len 0) map.items (IsRankIn (take share (drop (i * share) blocks.now)) t)) }
{
    let mut map = vec![in alloc; 0; len]?;
    mark_pieces(&mut map, 0, share_of(blocks, i, share), t, size);
    Ok(map)
}

// The blocks of one share, of which each has as many as the first; the last ones may have fewer.
fn share_of(blocks: &[Block], i: usize, share: usize) -> &[Block]
    requires few_shares { i ≤ MAX_WORKERS }
    requires few_blocks { share ≤ MAX_BLOCKS }
    ensures { result.now ≡ take share (drop (i * share) blocks.now) }
{
    let from = blocks.len().min(i * share);
    let to = blocks.len().min(from + share);
    &blocks[from..to]
}
