ghost use Rattle.std.specs.Prelude.{◌≡◌, ◌⊎◌, ◌↔◌, ℕ, ◌+◌, ◌*◌, ◌/◌, ◌%◌, ◌<◌, ◌≤◌, length, take};
ghost use Rattle.std.specs.Int.{bit_at};
ghost use Rattle.lj_base.specs.Blocks.{Ascends};
ghost use Rattle.lj_verify.specs.Marks.{IsAtPoint, IsInWords, IsRankAmong, IsRankIn, Marks};

use crate::bits::mark_bits;
use crate::laws::set_laws;
use crate::limits::{MAX_WORDS, RANK_LIMIT};
use lj_base::{Block, COST_LIMIT, binom};

// Points below 128: bit p of `low` is point p, and bit p of `high` is point 64 + p.
#[derive(Clone, Copy)]
struct PointBits {
    low: u64,
    high: u64,
}

/// Marks the rank of each set of `t` points that a block contains, in words of which the first has the ranks from
/// `64 * start` on, by runs of pairs. Cost: a few steps for each set of `t - 1` points of a block, where its sets have
/// ranks of the range.
pub(crate) fn mark_sets(words: &mut [u64], start: u64, blocks: &[Block], t: u64)
    requires small { t ≤ 8 }
    requires few_words { start + length words.old ≤ MAX_WORDS }
    ensures { Marks start words.old words.new (IsRankIn blocks.now t) }
{
    for block in blocks {
        mark_block(words, start, block, t);
    }
}

// Marks the rank of each set of `t` points of the block.
pub(crate) fn mark_block(words: &mut [u64], start: u64, block: &Block, t: u64)
    requires small { t ≤ 8 }
    requires few_words { start + length words.old ≤ MAX_WORDS }
    ensures { Marks start words.old words.new (IsRankAmong block.now t 0) }
{
    set_laws();
    let len = block.len();
    if len < t {
        return;
    }
    match t {
        0 => mark_bits(words, start, 0, 1),
        1 => mark_points(words, start, block),
        _ => mark_among(words, start, block, len, t, 0),
    }
}

// Marks the rank of each point of the block: the point itself.
fn mark_points(words: &mut [u64], start: u64, block: &Block)
    requires few_words { start + length words.old ≤ MAX_WORDS }
    ensures { Marks start words.old words.new (IsRankAmong block.now 1 0) }
{
    set_laws();
    for i in 0..block.len() {
        mark_bits(words, start, block.at(i) as u64, 1);
    }
}

/// Of the sets of `t` points among the block's first `n`, marks those of a rank in the range. `rest` is added to each
//// rank. The sets with the same greatest point follow each other: such a run is passed over where it lies outside the
/// range.
pub(crate) fn mark_among(words: &mut [u64], start: u64, block: &Block, n: u64, t: u64, rest: u64)
    requires some { 2 ≤ t }
    requires small { t ≤ 8 }
    requires enough { t ≤ n }
    requires within { n ≤ length block.now }
    requires ascends { Ascends 0 99 block.now }
    requires few_words { start + length words.old ≤ MAX_WORDS }
    requires fits { rest + t * COST_LIMIT ≤ RANK_LIMIT }
    ensures { Marks start words.old words.new (IsRankAmong (take n block.now) t rest) }
{
    set_laws();
    if t == 2 {
        return mark_pairs(words, start, block, n, rest);
    }
    let low = 64 * start;
    let high = low + 64 * words.len() as u64;
    for i in t - 1..n {
        let point = block.at(i) as u64;
        let least = rest + binom(point, t);
        if least < high && low < least + binom(point, t - 1) {
            mark_among(words, start, block, i, t - 1, least);
        }
    }
}

// Of the pairs among the block's first `n` points, marks those of a rank in the range: the ranks of those with one
// greater point lie side by side, as the lower points do.
fn mark_pairs(words: &mut [u64], start: u64, block: &Block, n: u64, rest: u64)
    requires within { n ≤ length block.now }
    requires ascends { Ascends 0 99 block.now }
    requires few_words { start + length words.old ≤ MAX_WORDS }
    requires fits { rest + 2 * COST_LIMIT ≤ RANK_LIMIT }
    ensures { Marks start words.old words.new (IsRankAmong (take n block.now) 2 rest) }
{
    set_laws();
    let mut lower = PointBits { low: 0, high: 0 };
    for i in 0..n {
        let point = block.at(i) as u64;
        mark_run(words, start, rest + binom(point, 2), lower);
        lower = with_point(lower, point);
    }
}

// The points, and this one.
#[inline(always)]
fn with_point(points: PointBits, point: u64) -> PointBits
    requires { point < 99 }
    ensures { (p : ℕ) → IsInWords result.low result.high p ↔ (IsInWords points.low points.high p ⊎ (point ≡ p)) }
{
    let PointBits { low, high } = points;
    if point < 64 {
        PointBits {
            low: low | (1 << point),
            high,
        }
    } else {
        PointBits {
            low,
            high: high | (1 << (point - 64)),
        }
    }
}

// Marks the rank of each point, from the rank of point 0.
#[inline(always)]
fn mark_run(words: &mut [u64], start: u64, rank: u64, points: PointBits)
    requires few_words { start + length words.old ≤ MAX_WORDS }
    requires fits { rank ≤ 2 * RANK_LIMIT }
    ensures { Marks start words.old words.new (IsAtPoint rank points.low points.high) }
{
    mark_bits(words, start, rank, points.low);
    if points.high != 0 {
        mark_bits(words, start, rank + 64, points.high);
    }
}
