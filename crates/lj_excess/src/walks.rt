ghost use Rattle.std.specs.Prelude.{◌≡◌, ℕ, ◌+◌, ◌<◌, ◌≤◌, ◌↔◌, IsTrue, length, slice_index, take};
ghost use Rattle.lj_base.specs.Blocks.{Ascends};
ghost use Rattle.lj_base.specs.Colex.{choose};
ghost use Rattle.lj_excess.specs.Changes.{Changed, shifted};
ghost use Rattle.lj_verify.specs.Marks.{IsRankAmong};

use crate::laws::set_laws;
use crate::limits::MAX_COUNTS;
use lj_base::{Block, binom, choose_law};

// The sets of a block with one greatest point have the ranks of the smaller sets below it, moved up by the number of
// sets below that point. So the last loop of a walk goes over points, whose ranks are the points themselves.

/// Adds `step` to the count of each set of `t` points of the block, in 32 bits: the greatest number takes 1 away.
/// Cost: an addition for each set of `t` points, and a few steps for each of `t - 1`.
pub(crate) fn shift_block(counts: &mut [u32], block: &Block, t: u64, step: u32)
    requires small { t ≤ 8 }
    requires enough { t ≤ length block.now }
    requires some { 0 < length counts.old }
    requires few { length counts.old ≤ MAX_COUNTS }
    requires room { (i : ℕ) → i < length block.now →
        choose (slice_index block.now i + 1) t ≤ length counts.old }
    ensures { Changed (shifted step) counts.old counts.new (IsRankAmong block.now t 0) }
{
    set_laws();
    let len = block.len();
    match t {
        0 => shift_one(counts, 0, step),
        1 => shift_points(counts, block, len, 0, step),
        _ => shift_among(counts, block, len, t, 0, step),
    }
}

// Adds to the counts of the sets of `t` points among the block's first `n`, where `rest` is added to each rank.
fn shift_among(counts: &mut [u32], block: &Block, n: u64, t: u64, rest: u64, step: u32)
    requires some { 2 ≤ t }
    requires small { t ≤ 8 }
    requires enough { t ≤ n }
    requires within { n ≤ length block.now }
    requires ascends { Ascends 0 99 block.now }
    requires few { length counts.old ≤ MAX_COUNTS }
    requires room { (i : ℕ) → i < n → rest + choose (slice_index block.now i + 1) t ≤ length counts.old }
    ensures { Changed (shifted step) counts.old counts.new (IsRankAmong (take n block.now) t rest) }
{
    set_laws();
    choose_law();
    if t == 2 {
        return shift_pairs(counts, block, n, rest, step);
    }
    if t == 3 {
        return shift_triples(counts, block, n, rest, step);
    }
    for i in t - 1..n {
        let least = rest + binom(block.at(i) as u64, t);
        shift_among(counts, block, i, t - 1, least, step);
    }
}

// Adds to the counts of the triples among the block's first `n` points.
fn shift_triples(counts: &mut [u32], block: &Block, n: u64, rest: u64, step: u32)
    requires enough { 2 ≤ n }
    requires within { n ≤ length block.now }
    requires ascends { Ascends 0 99 block.now }
    requires few { length counts.old ≤ MAX_COUNTS }
    requires room { (i : ℕ) → i < n → rest + choose (slice_index block.now i + 1) 3 ≤ length counts.old }
    ensures { Changed (shifted step) counts.old counts.new (IsRankAmong (take n block.now) 3 rest) }
{
    set_laws();
    choose_law();
    for i in 2..n {
        let least = rest + binom(block.at(i) as u64, 3);
        shift_pairs(counts, block, i, least, step);
    }
}

// Adds to the counts of the pairs among the block's first `n` points.
#[inline(always)]
fn shift_pairs(counts: &mut [u32], block: &Block, n: u64, rest: u64, step: u32)
    requires some { 1 ≤ n }
    requires within { n ≤ length block.now }
    requires ascends { Ascends 0 99 block.now }
    requires few { length counts.old ≤ MAX_COUNTS }
    requires room { (i : ℕ) → i < n → rest + choose (slice_index block.now i + 1) 2 ≤ length counts.old }
    ensures { Changed (shifted step) counts.old counts.new (IsRankAmong (take n block.now) 2 rest) }
{
    set_laws();
    choose_law();
    for i in 1..n {
        let least = rest + binom(block.at(i) as u64, 2);
        shift_points(counts, block, i, least, step);
    }
}

// Adds to the counts of the block's first `n` points.
#[inline(always)]
fn shift_points(counts: &mut [u32], block: &Block, n: u64, rest: u64, step: u32)
    requires within { n ≤ length block.now }
    requires ascends { Ascends 0 99 block.now }
    requires few { length counts.old ≤ MAX_COUNTS }
    requires room { (i : ℕ) → i < n → rest + choose (slice_index block.now i + 1) 1 ≤ length counts.old }
    ensures { Changed (shifted step) counts.old counts.new (IsRankAmong (take n block.now) 1 rest) }
{
    set_laws();
    for i in 0..n {
        shift_one(counts, rest + block.at(i) as u64, step);
    }
}

// Adds to the count at a place.
#[inline(always)]
fn shift_one(counts: &mut [u32], r: u64, step: u32)
    requires { r < length counts.old }
    ensures { Changed (shifted step) counts.old counts.new (λ place. r ≡ place) }
{
    counts[r as usize] = counts[r as usize].wrapping_add(step);
}

/// Whether the count of each set of `t` points of the block is at least 2. Cost: a few steps for each set up to the
/// first whose count is less.
pub(crate) fn each_twice(counts: &[u32], block: &Block, t: u64) -> bool
    requires small { t ≤ 8 }
    requires enough { t ≤ length block.now }
    requires some { 0 < length counts.now }
    requires few { length counts.now ≤ MAX_COUNTS }
    requires room { (i : ℕ) → i < length block.now →
        choose (slice_index block.now i + 1) t ≤ length counts.now }
    ensures { IsTrue result ↔ ((r : ℕ) → IsRankAmong block.now t 0 r → 2 ≤ slice_index counts.now r) }
{
    set_laws();
    let len = block.len();
    match t {
        0 => counts[0] >= 2,
        1 => points_twice(counts, block, len, 0),
        _ => among_twice(counts, block, len, t, 0),
    }
}

// Whether that holds of the sets of `t` points among the block's first `n`, where `rest` is added to each rank.
fn among_twice(counts: &[u32], block: &Block, n: u64, t: u64, rest: u64) -> bool
    requires some { 2 ≤ t }
    requires small { t ≤ 8 }
    requires enough { t ≤ n }
    requires within { n ≤ length block.now }
    requires ascends { Ascends 0 99 block.now }
    requires few { length counts.now ≤ MAX_COUNTS }
    requires room { (i : ℕ) → i < n → rest + choose (slice_index block.now i + 1) t ≤ length counts.now }
    ensures { IsTrue result ↔
        ((r : ℕ) → IsRankAmong (take n block.now) t rest r → 2 ≤ slice_index counts.now r) }
{
    set_laws();
    choose_law();
    if t == 2 {
        return pairs_twice(counts, block, n, rest);
    }
    if t == 3 {
        return triples_twice(counts, block, n, rest);
    }
    for i in t - 1..n {
        let least = rest + binom(block.at(i) as u64, t);
        if !among_twice(counts, block, i, t - 1, least) {
            return false;
        }
    }
    true
}

// Whether that holds of the triples among the block's first `n` points.
fn triples_twice(counts: &[u32], block: &Block, n: u64, rest: u64) -> bool
    requires enough { 2 ≤ n }
    requires within { n ≤ length block.now }
    requires ascends { Ascends 0 99 block.now }
    requires few { length counts.now ≤ MAX_COUNTS }
    requires room { (i : ℕ) → i < n → rest + choose (slice_index block.now i + 1) 3 ≤ length counts.now }
    ensures { IsTrue result ↔
        ((r : ℕ) → IsRankAmong (take n block.now) 3 rest r → 2 ≤ slice_index counts.now r) }
{
    set_laws();
    choose_law();
    for i in 2..n {
        let least = rest + binom(block.at(i) as u64, 3);
        if !pairs_twice(counts, block, i, least) {
            return false;
        }
    }
    true
}

// Whether that holds of the pairs among the block's first `n` points.
#[inline(always)]
fn pairs_twice(counts: &[u32], block: &Block, n: u64, rest: u64) -> bool
    requires some { 1 ≤ n }
    requires within { n ≤ length block.now }
    requires ascends { Ascends 0 99 block.now }
    requires few { length counts.now ≤ MAX_COUNTS }
    requires room { (i : ℕ) → i < n → rest + choose (slice_index block.now i + 1) 2 ≤ length counts.now }
    ensures { IsTrue result ↔
        ((r : ℕ) → IsRankAmong (take n block.now) 2 rest r → 2 ≤ slice_index counts.now r) }
{
    set_laws();
    choose_law();
    for i in 1..n {
        let least = rest + binom(block.at(i) as u64, 2);
        if !points_twice(counts, block, i, least) {
            return false;
        }
    }
    true
}

// Whether that holds of the block's first `n` points.
#[inline(always)]
fn points_twice(counts: &[u32], block: &Block, n: u64, rest: u64) -> bool
    requires within { n ≤ length block.now }
    requires ascends { Ascends 0 99 block.now }
    requires few { length counts.now ≤ MAX_COUNTS }
    requires room { (i : ℕ) → i < n → rest + choose (slice_index block.now i + 1) 1 ≤ length counts.now }
    ensures { IsTrue result ↔
        ((r : ℕ) → IsRankAmong (take n block.now) 1 rest r → 2 ≤ slice_index counts.now r) }
{
    set_laws();
    for i in 0..n {
        if counts[(rest + block.at(i) as u64) as usize] < 2 {
            return false;
        }
    }
    true
}
