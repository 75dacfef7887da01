ghost use Rattle.std.specs.Prelude.{◌≡◌, ◌+◌, ◌*◌, ◌/◌, ◌<◌, ◌≤◌, length, take};
ghost use Rattle.lj_base.specs.Blocks.{Ascends};
ghost use Rattle.lj_base.specs.Colex.{choose};
ghost use Rattle.lj_verify.specs.Marks.{IsRankAmong, IsRankIn, Marks};
ghost use Rattle.lj_verify.specs.Strings.{IsStringOf, words_for};

use crate::bits::mark_prefix;
use crate::laws::set_laws;
use crate::limits::{MAX_WORDS, RANK_LIMIT};
use crate::pairs::{mark_among, mark_block};
use lj_base::{Block, COST_LIMIT, binom};

// All sets of s points below a point p have the ranks from 0 to binom(p, s) - 1. So the ranks of a block's sets of
// `size` points, once they stand as a string of bits, serve all its larger sets: for each choice of the greater points,
// the least of them being p, the first binom(p, size) bits of the string are marked from the rank of that choice on.

/// How many words the strings of one block may take.
pub(crate) const SCRATCH: usize = 8192;

/// Marks the rank of each set of `t` points that a block contains, in words of which the first has the ranks from
/// `64 * start` on. Each block's strings are made in `scratch`, or its sets are marked by runs where they do not fit.
pub(crate) fn mark_by_strings(
    words: &mut [u64],
    start: u64,
    blocks: &[Block],
    t: u64,
    size: u64,
    scratch: &mut [u64],
)
    requires some { 1 ≤ size }
    requires size { size < t }
    requires small { t ≤ 8 }
    requires few_words { start + length words.old ≤ MAX_WORDS }
    requires few { length scratch.old ≤ MAX_WORDS }
    ensures { Marks start words.old words.new (IsRankIn blocks.now t) }
{
    for block in blocks {
        mark_by_string(words, start, block, block.len(), t, size, scratch);
    }
}

// Of the sets of `t` points among the block's first `n`, marks those of a rank in the range. While those with the last
// of these points all come after the range, that point is left out.
fn mark_by_string(
    words: &mut [u64],
    start: u64,
    block: &Block,
    n: u64,
    t: u64,
    size: u64,
    scratch: &mut [u64],
)
    requires some { 1 ≤ size }
    requires size { size < t }
    requires small { t ≤ 8 }
    requires within { n ≤ length block.now }
    requires ascends { Ascends 0 99 block.now }
    requires few_words { start + length words.old ≤ MAX_WORDS }
    requires few { length scratch.old ≤ MAX_WORDS }
    ensures marks { Marks start words.old words.new (IsRankAmong (take n block.now) t 0) }
    ensures stays { length scratch.new ≡ length scratch.old }
{
    set_laws();
    if n < t {
        return;
    }
    let high = 64 * (start + words.len() as u64);
    if binom(block.at(n - 1) as u64, t) >= high {
        mark_by_string(words, start, block, n - 1, t, size, scratch);
    } else {
        mark_first(words, start, block, n, t, size, scratch);
    }
}

// Of the sets of `t` points among the block's first `n`, marks those of a rank in the range. The string has the points
// alone that can be among the `size` least ones, and the next.
fn mark_first(
    words: &mut [u64],
    start: u64,
    block: &Block,
    n: u64,
    t: u64,
    size: u64,
    scratch: &mut [u64],
)
    requires some { 1 ≤ size }
    requires size { size < t }
    requires small { t ≤ 8 }
    requires enough { t ≤ n }
    requires within { n ≤ length block.now }
    requires ascends { Ascends 0 99 block.now }
    requires few_words { start + length words.old ≤ MAX_WORDS }
    requires few { length scratch.old ≤ MAX_WORDS }
    ensures marks { Marks start words.old words.new (IsRankAmong (take n block.now) t 0) }
    ensures stays { length scratch.new ≡ length scratch.old }
{
    let m = n - (t - size - 1);
    let v = block.at(m - 1) as u64 + 1;
    if needs(v, size) > scratch.len() as u64 {
        return mark_among(words, start, block, n, t, 0);
    }
    make_string(scratch, &first_points(block, m), v, size);
    let string = &scratch[..string_words(v, size) as usize];
    mark_above(words, start, block, n, m, t, size, 0, string);
}

// The block's first `m` points.
fn first_points(block: &Block, m: u64) -> Block
    ensures { result ≡ take m block.now }
{
    let mut first = Block::empty();
    let len = block.len();
    for i in 0..len.min(m) {
        first.push(block.at(i));
    }
    first
}

// How many words the string of the sets of `size` points below `v` takes.
fn string_words(v: u64, size: u64) -> u64
    requires few_points { v ≤ 99 }
    requires small { size ≤ 8 }
    ensures value { result ≡ (choose v size + 63) / 64 }
    ensures small { result < COST_LIMIT }
{
    binom(v, size).div_ceil(64)
}

/// How many words the strings of the sets of 1 to `size` points below `v` take.
pub(crate) fn needs(v: u64, size: u64) -> u64
    requires few_points { v ≤ 99 }
    requires small { size ≤ 8 }
    ensures value { result ≡ words_for v size }
    ensures small { result ≤ size * COST_LIMIT }
{
    if size == 0 {
        return 0;
    }
    string_words(v, size) + needs(v, size - 1)
}

// Makes the string of a block's sets of `size` points in the first words: those of one or two points by runs, others
// from the string of one point less in the words after them.
fn make_string(scratch: &mut [u64], block: &Block, v: u64, size: u64)
    requires few_points { v ≤ 99 }
    requires below { Ascends 0 v block.now }
    requires some { 1 ≤ size }
    requires small { size ≤ 8 }
    requires enough { size ≤ length block.now }
    requires room { words_for v size ≤ length scratch.old }
    requires few { length scratch.old ≤ MAX_WORDS }
    ensures string { IsStringOf block.now size (take ((choose v size + 63) / 64) scratch.new) }
    ensures stays { length scratch.new ≡ length scratch.old }
{
    let (string, others) = scratch.split_at_mut(string_words(v, size) as usize);
    string.fill(0);
    if size <= 2 {
        mark_block(string, 0, block, size);
    } else {
        make_string(others, block, v, size - 1);
        let lower = &others[..string_words(v, size - 1) as usize];
        let len = block.len();
        mark_above(string, 0, block, len, len, size, size - 1, 0, lower);
    }
}

// Of the sets of `t` points among the block's first `n`, marks those of a rank in the range: for each choice of all but
// `size` points those with it, of which the string has the others. The string is that of the block's first `m` points,
// and `rest` is added to each rank.
fn mark_above(
    words: &mut [u64],
    start: u64,
    block: &Block,
    n: u64,
    m: u64,
    t: u64,
    size: u64,
    rest: u64,
    string: &[u64],
)
    requires some { 1 ≤ size }
    requires size { size < t }
    requires small { t ≤ 8 }
    requires enough { t ≤ n }
    requires within { n ≤ length block.now }
    requires ascends { Ascends 0 99 block.now }
    requires few_words { start + length words.old ≤ MAX_WORDS }
    requires fits { rest + t * COST_LIMIT ≤ RANK_LIMIT }
    requires covered { n + size + 1 ≤ m + t }
    requires first { m ≤ length block.now }
    requires string { IsStringOf (take m block.now) size string.now }
    requires few { length string.now ≤ MAX_WORDS }
    ensures { Marks start words.old words.new (IsRankAmong (take n block.now) t rest) }
{
    set_laws();
    if t == size + 1 {
        return mark_prefixes(words, start, block, n, m, size, rest, string);
    }
    let low = 64 * start;
    let high = low + 64 * words.len() as u64;
    for i in t - 1..n {
        let point = block.at(i) as u64;
        let least = rest + binom(point, t);
        if least < high && low < least + binom(point, t - 1) {
            mark_above(words, start, block, i, m, t - 1, size, least, string);
        }
    }
}

// Of the sets of `size + 1` points among the block's first `n`, marks those of a rank in the range: for each greatest
// point a prefix of the string, which is that of the block's first `m` points.
fn mark_prefixes(
    words: &mut [u64],
    start: u64,
    block: &Block,
    n: u64,
    m: u64,
    size: u64,
    rest: u64,
    string: &[u64],
)
    requires some { 1 ≤ size }
    requires small { size < 8 }
    requires enough { size < n }
    requires within { n ≤ length block.now }
    requires ascends { Ascends 0 99 block.now }
    requires few_words { start + length words.old ≤ MAX_WORDS }
    requires fits { rest + 2 * COST_LIMIT ≤ RANK_LIMIT }
    requires covered { n ≤ m }
    requires first { m ≤ length block.now }
    requires string { IsStringOf (take m block.now) size string.now }
    requires few { length string.now ≤ MAX_WORDS }
    ensures { Marks start words.old words.new (IsRankAmong (take n block.now) (size + 1) rest) }
{
    set_laws();
    let low = 64 * start;
    let high = low + 64 * words.len() as u64;
    for i in size..n {
        let point = block.at(i) as u64;
        let least = rest + binom(point, size + 1);
        if least < high && low < least + binom(point, size) {
            mark_prefix(words, start, least, string, binom(point, size));
        }
    }
}
