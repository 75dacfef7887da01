ghost use Rattle.std.specs.Prelude.{◌≡◌, ◌+◌, ◌-◌, ◌*◌, ◌<◌, ◌≤◌, [], ◌∷◌, drop, length, map, slice_index, take};
ghost use Rattle.std.specs.List.{AllByRecursion};
ghost use Rattle.lj_base.specs.Blocks.{AllBelow, Ascends, IsBlock};
ghost use Rattle.lj_base.specs.Colex.{choose, sets};
ghost use Rattle.lj_cover.specs.BlockLists.{ceil_div, derived2_blocks, derived_blocks, join_blocks, run_blocks};
ghost use Rattle.lj_cover.specs.Operations.{add_point, drop_last, fill, place, unite};
ghost use Rattle.lj_expand.specs.Positions.{with_first};
ghost use Rattle.lj_rank.specs.Ranks.{rank_of};

use crate::bases::run_of;
use lj_base::Block;
use lj_cover::laws::points_are_tested;
use lj_cover::{add_point, drop_last, fill, has_both, relabel, unite, without};
use lj_rank::{TSet, next, rank_law, unrank};

/// One block, where there is room for it.
pub(crate) fn fill_one(block: Block, out: &mut [Block])
    requires { length out.old ≤ 1 }
    ensures { out.new ≡ take (length out.old) (block ∷ []) }
{
    if out.len() == 1 {
        out[0] = block;
    }
}

/// The runs of `k` points from the `i`-th on.
pub(crate) fn fill_runs(v: u64, k: u64, i: u64, out: &mut [Block])
    requires few { v ≤ 99 }
    requires room { k ≤ v }
    requires short { k ≤ 25 }
    requires some { 1 ≤ k }
    requires fits { i + length out.old ≤ ceil_div v k }
    ensures { out.new ≡ take (length out.old) (drop i (run_blocks v k)) }
{
    for j in 0..out.len() {
        out[j] = run_of(v, k, i + j as u64);
    }
}

/// All sets in colexicographic order, from the `i`-th on. Their first points stand apart, since most often the first
/// point alone rises.
pub(crate) fn fill_all(v: u64, k: u64, i: u64, out: &mut [Block])
    requires few { v ≤ 99 }
    requires small { k ≤ 8 }
    requires fits { i + length out.old ≤ choose v k }
    ensures { out.new ≡ take (length out.old) (drop i (sets v k)) }
{
    if out.is_empty() {
        return;
    }
    rank_law();
    let mut set = unrank(v, k, i);
    let mut first = first_of(&set);
    for j in 0..out.len() {
        out[j] = block_with_first(first, &set);
        first = next_first(v, first, &mut set);
    }
}

// Makes the set, where its first point stands apart, the next one below `v`, and returns its first point.
fn next_first(v: u64, first: u8, set: &mut TSet) -> u8
    requires few { v ≤ 99 }
    requires below { Ascends 0 v (with_first first set.old) }
    ensures block { IsBlock v (length set.old) (with_first result set.new) }
    ensures rank { rank_of (with_first first set.old) + 1 < choose v (length set.old)
        → rank_of (with_first result set.new) ≡ rank_of (with_first first set.old) + 1 }
{
    if set.len() > 1 && first + 1 < set.at(1) {
        return first + 1;
    }
    let mut whole = set_with_first(first, set);
    next(v, &mut whole);
    *set = whole;
    first_of(&whole)
}

// The set's first point, if it has one.
fn first_of(set: &TSet) -> u8
    ensures same { with_first result set.now ≡ set.now }
    ensures small { result < 99 }
{
    if set.len() > 0 { set.at(0) } else { 0 }
}

// The block of the set with another first point.
fn block_with_first(first: u8, set: &TSet) -> Block
    requires { Ascends 0 99 (with_first first set.now) }
    ensures { result ≡ with_first first set.now }
{
    let mut block = Block::empty();
    for i in 0..set.len() {
        let point = point_with_first(first, set, i);
        block.push(point);
    }
    block
}

// The set with another first point.
fn set_with_first(first: u8, set: &TSet) -> TSet
    requires { Ascends 0 99 (with_first first set.now) }
    ensures { result ≡ with_first first set.now }
{
    let mut whole = TSet::empty();
    for i in 0..set.len() {
        let point = point_with_first(first, set, i);
        whole.push(point);
    }
    whole
}

// The point at a place of the set with another first point.
fn point_with_first(first: u8, set: &TSet, i: u64) -> u8
    requires { i < length set.now }
    ensures { result ≡ slice_index (with_first first set.now) i }
{
    if i == 0 { first } else { set.at(i) }
}

/// The blocks from the `i`-th on.
pub(crate) fn fill_copies(blocks: &[Block], i: u64, out: &mut [Block])
    requires { i + length out.old ≤ length blocks.now }
    ensures { out.new ≡ take (length out.old) (drop i blocks.now) }
{
    let start = i as usize;
    let end = start + out.len();
    out.copy_from_slice(&blocks[start..end]);
}

/// What the blocks through a point give, from a place of the source on.
pub(crate) fn fill_through(source: &[Block], x: u8, start: u64, out: &mut [Block])
    requires fits { length out.old ≤ length (derived_blocks x (drop start source.now)) }
    ensures { out.new ≡ take (length out.old) (derived_blocks x (drop start source.now)) }
{
    points_are_tested();
    let mut place = start as usize;
    let mut done = 0;
    while done < out.len() {
        let block = source[place];
        if block.has(x) {
            out[done] = without(block, x);
            done += 1;
        }
        place += 1;
    }
}

/// What the blocks through two points give, from a place of the source on.
pub(crate) fn fill_through2(source: &[Block], x: u8, y: u8, start: u64, out: &mut [Block])
    requires fits { length out.old ≤ length (derived2_blocks x y (drop start source.now)) }
    ensures { out.new ≡ take (length out.old) (derived2_blocks x y (drop start source.now)) }
{
    let mut place = start as usize;
    let mut done = 0;
    while done < out.len() {
        let block = source[place];
        if has_both(&block, x, y) {
            out[done] = without(without(block, y), x);
            done += 1;
        }
        place += 1;
    }
}

/// Each block without point `v`, filled where it had it.
pub(crate) fn drop_each(v: u64, out: &mut [Block])
    requires below { AllByRecursion (AllBelow (v + 1)) out.old }
    requires room { AllByRecursion (λ b. length b ≤ v) out.old }
    ensures { out.new ≡ map (drop_last v) out.old }
{
    for block in out.iter_mut() {
        *block = drop_last(*block, v);
    }
}

/// Each block with a point after its others.
pub(crate) fn add_each(p: u8, out: &mut [Block])
    requires in_range { p + 1 ≤ 99 }
    requires greatest { AllByRecursion (AllBelow p) out.old }
    requires room { AllByRecursion (λ b. length b + 1 ≤ 25) out.old }
    ensures { out.new ≡ map (add_point p) out.old }
{
    for block in out.iter_mut() {
        *block = add_point(*block, p);
    }
}

/// Each block filled below `v` to `k` points.
pub(crate) fn grow_each(v: u64, k: u64, out: &mut [Block])
    requires below { AllByRecursion (AllBelow v) out.old }
    requires larger { AllByRecursion (λ b. length b ≤ k) out.old }
    requires room { k ≤ v }
    requires short { k ≤ 25 }
    ensures { out.new ≡ map (fill k) out.old }
{
    for block in out.iter_mut() {
        *block = fill(*block, v, k);
    }
}

/// A block united with each block.
pub(crate) fn unite_each(first: Block, v1: u64, out: &mut [Block])
    requires first { AllBelow v1 first }
    requires second { AllByRecursion (AllBelow (99 - v1)) out.old }
    requires short { AllByRecursion (λ b. length first + length b ≤ 25) out.old }
    ensures { out.new ≡ map (unite v1 first) out.old }
{
    for block in out.iter_mut() {
        *block = unite(first, *block, v1);
    }
}

/// Each of the first blocks united with each of the second ones, which run faster, from a position in the first row on.
pub(crate) fn unite_all(firsts: &[Block], seconds: &[Block], v1: u64, from: u64, out: &mut [Block])
    requires first { AllByRecursion (AllBelow v1) firsts.now }
    requires second { AllByRecursion (AllBelow (99 - v1)) seconds.now }
    requires short { AllByRecursion (λ a. AllByRecursion (λ b. length a + length b ≤ 25) seconds.now) firsts.now }
    requires begins { from < length seconds.now }
    requires fits { from + length out.old ≤ length firsts.now * length seconds.now }
    ensures { out.new ≡ take (length out.old) (drop from (join_blocks v1 firsts.now seconds.now)) }
{
    let mut row = 0;
    let mut place = from as usize;
    for j in 0..out.len() {
        let first = firsts[row];
        let second = seconds[place];
        out[j] = unite(first, second, v1);
        place += 1;
        if place == seconds.len() {
            place = 0;
            row += 1;
        }
    }
}

/// Each block placed on the points.
pub(crate) fn place_each(points: &Block, out: &mut [Block])
    requires { AllByRecursion (AllBelow (length points.now)) out.old }
    ensures { out.new ≡ map (place points.now) out.old }
{
    for block in out.iter_mut() {
        *block = relabel(*block, points);
    }
}
