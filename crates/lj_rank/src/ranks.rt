ghost use Rattle.std.specs.Prelude.{◌≡◌, ◌+◌, ◌-◌, ◌<◌, ◌≤◌, ◌↔◌, ℕ, ◌++◌, drop, take, length, slice_get, Some, IfNone};
ghost use Rattle.std.specs.Prelude.{IfSome, IsTrue};
ghost use Rattle.std.specs.Bool.{OnFalse, OnTrue};
ghost use Rattle.lj_base.specs.Blocks.{Ascends, IsBlock};
ghost use Rattle.lj_base.specs.Colex.{choose, sets};
ghost use Rattle.lj_rank.specs.Ranks.{IsFirstFrom, IsFirstRun, IsSubset, rank_of};

use crate::sets::TSet;
use lj_base::{Block, binom, choose_law};

/// The number of sets of the same size that stand before this one. Cost: one binomial for each point.
pub fn rank(set: &TSet) -> u64
    ensures sum { result ≡ rank_of set.now }
    ensures place { (v : ℕ) → Ascends 0 v set.now → slice_get (sets v (length set.now)) result ≡ Some set.now }
{
    choose_law();
    let mut sum = 0;
    for i in 0..set.len() {
        sum += binom(set.at(i) as u64, i + 1);
    }
    sum
}

/// The set of `t` points below `v` of a rank. Cost: at most `v + t` binomials.
pub fn unrank(v: u64, t: u64, r: u64) -> TSet
    requires few_points { v ≤ 99 }
    requires small { t ≤ 8 }
    requires in_range { r < choose v t }
    ensures block { IsBlock v t result }
    ensures rank { rank_of result ≡ r }
    ensures place { slice_get (sets v t) r ≡ Some result }
{
    if t == 0 {
        return TSet::empty();
    }
    let mut greatest = v - 1;
    while binom(greatest, t) > r {
        greatest -= 1;
    }
    let mut set = unrank(greatest, t - 1, r - binom(greatest, t));
    set.push(greatest as u8);
    set
}

/// Makes the set the next one of the same size below `v`. Returns false, and the set stays, where it is the last.
/// Cost: a few steps for each point of the set.
pub fn next(v: u64, set: &mut TSet) -> bool
    requires few_points { v ≤ 99 }
    requires below { Ascends 0 v set.old }
    ensures last { IsTrue result ↔ (rank_of set.old + 1 < choose v (length set.old)) }
    ensures block { IsBlock v (length set.old) set.new }
    ensures rank { OnTrue result (rank_of set.new ≡ rank_of set.old + 1) }
    ensures stays { OnFalse result (set.new ≡ set.old) }
{
    if set.len() == 0 {
        return false;
    }
    choose_law();
    let run = first_run(set);
    let raised = set.at(run - 1) + 1;
    if raised as u64 == v {
        return false;
    }
    let mut front = lowest(run - 1);
    front.push(raised);
    *set = with_front(front, set, run);
    true
}

/// Of the block's sets of `t` points, the one of least rank from `least` on; none where each has a lower rank.
/// Cost: a few steps for each point of the block.
pub fn seek(block: &Block, t: u64, least: u64) -> Option<TSet>
    requires { t ≤ 8 }
    ensures first { IfSome result (IsFirstFrom block.now t least) }
    ensures none { IfNone result ((r : _) → IsSubset block.now t r → rank_of r < least) }
{
    seek_among(block, block.len(), t, least)
}

// `seek` among the block's first `n` points. The sets without the last of these points stand before those with it.
fn seek_among(block: &Block, n: u64, t: u64, least: u64) -> Option<TSet>
    requires small { t ≤ 8 }
    requires within { n ≤ length block.now }
    requires ascends { Ascends 0 99 block.now }
    ensures first { IfSome result (IsFirstFrom (take n block.now) t least) }
    ensures none { IfNone result ((r : _) → IsSubset (take n block.now) t r → rank_of r < least) }
{
    if n < t {
        return None;
    }
    if t == 0 {
        return if least == 0 {
            Some(TSet::empty())
        } else {
            None
        };
    }
    let last = block.at(n - 1);
    let before = binom(last as u64, t);
    if least < before {
        if let Some(set) = seek_among(block, n - 1, t, least) {
            return Some(set);
        }
    }
    let mut set = seek_among(block, n - 1, t - 1, least.saturating_sub(before))?;
    set.push(last);
    Some(set)
}

// The number of points from the first on that follow each other without a gap.
fn first_run(set: &TSet) -> u64
    requires { 0 < length set.now }
    ensures { IsFirstRun set.now result }
{
    let len = set.len();
    let mut run = 1;
    while run < len && set.at(run) == set.at(run - 1) + 1 {
        run += 1;
    }
    run
}

// The first set of `t` points: those below `t`.
fn lowest(t: u64) -> TSet
    requires { t ≤ 8 }
    ensures { IsBlock t t result }
{
    let mut set = TSet::empty();
    for i in 0..t {
        set.push(i as u8);
    }
    set
}

// The set, with other points in place of its first `n`.
fn with_front(front: TSet, set: &TSet, n: u64) -> TSet
    requires room { length front + (length set.now - n) ≤ 8 }
    requires ascends { Ascends 0 99 (front ++ drop n set.now) }
    ensures { result ≡ front ++ drop n set.now }
{
    let mut whole = front;
    for i in n..set.len() {
        whole.push(set.at(i));
    }
    whole
}
