ghost use denote.Param.Send.{IsSync};
ghost use Rattle.std.specs.Prelude.{◌+◌, ◌<◌, ◌≤◌, length};
ghost use Rattle.lj_verify.specs.Marks.{IsRankIn, Marks};

use crate::limits::MAX_WORDS;
use crate::pieces::mark_pieces;
use lj_base::{Block, binom};
use std::thread::{Threads, join_mut};

// Ranges of ranks for several workers, one for each. Low ranks have more and shorter prefixes of strings than as many
// high ones, so ranges of equal length would be of unequal work.

/// Marks the rank of each set of `t` points that a block contains, in words of which the first has the ranks from
/// `64 * start` on. Each worker marks a range of its own, and these take about the same work.
#[cycle(halves)]
pub(crate) fn mark_ranges<R: Threads + Sync>(
    rt: &R,
    blocks: &[Block],
    t: u64,
    size: u64,
    workers: u64,
    start: u64,
    words: &mut [u64],
)
    requires small { t ≤ 8 }
    requires few_words { start + length words.old ≤ MAX_WORDS }
    ensures { Marks start words.old words.new (IsRankIn blocks.now t) }
{
    if workers <= 1 {
        return mark_pieces(words, start, blocks, t, size);
    }
    let middle = halfway(start, words.len(), t, size, workers);
    let (front, back) = words.split_at_mut(middle);
    mark_halves(rt, blocks, t, size, workers, start, front, back);
}

// One half of the workers marks the words in front, the other those after them.
#[cycle(halves)]
fn mark_halves<R: Threads + Sync>(
    rt: &R,
    blocks: &[Block],
    t: u64,
    size: u64,
    workers: u64,
    start: u64,
    front: &mut [u64],
    back: &mut [u64],
)
    requires small { t ≤ 8 }
    requires few_words { start + length front.old + length back.old ≤ MAX_WORDS }
    requires several { 1 < workers }
    ensures front { Marks start front.old front.new (IsRankIn blocks.now t) }
    ensures back { Marks (start + length front.old) back.old back.new (IsRankIn blocks.now t) }
{
    let some = workers / 2;
    let others = workers - some;
    let middle = start + front.len() as u64;
    let mut lower = ||
        requires { IsSync R.row × (t ≤ 8) × (start + length front.now ≤ MAX_WORDS) }
        ensures { Marks start front.entry.now front.exit.now (IsRankIn blocks.entry.now t) }
    { mark_ranges(rt, blocks, t, size, some, start, front) };
    let mut upper = ||
        requires { IsSync R.row × (t ≤ 8) × (middle + length back.now ≤ MAX_WORDS) }
        ensures { Marks middle back.entry.now back.exit.now (IsRankIn blocks.entry.now t) }
    { mark_ranges(rt, blocks, t, size, others, middle, back) };
    join_mut(rt, &mut lower, &mut upper);
}

// The place in a range of words before which one half of the workers, rounded down, has its share of the work.
fn halfway(start: u64, len: usize, t: u64, size: u64, workers: u64) -> usize
    requires small { t ≤ 8 }
    requires few_words { start + len ≤ MAX_WORDS }
    ensures { result ≤ len }
{
    let from = work_before(64 * start, t, size);
    let to = work_before(64 * (start + len as u64), t, size);
    let share = (to.saturating_sub(from) / workers.max(1)).saturating_mul(workers / 2);
    let target = from.saturating_add(share);
    let mut low = 0;
    let mut high = len;
    while low < high {
        let place = low + (high - low) / 2;
        if work_before(64 * (start + place as u64), t, size) < target {
            low = place + 1;
        } else {
            high = place;
        }
    }
    low
}

// Steps to mark the ranks before this one, if blocks have all points equally often. Between the ranks at which the
// greatest point changes it goes up evenly.
fn work_before(rank: u64, t: u64, size: u64) -> u64
    requires small { t ≤ 8 }
{
    let mut point = 0;
    while point < 98 && binom(point + 1, t) <= rank {
        point += 1;
    }
    let first = binom(point, t);
    let count = binom(point + 1, t).saturating_sub(first).max(1);
    let part = rank.saturating_sub(first).saturating_mul(1024) / count;
    let before = work_below(point, t, size);
    let here = work_below(point + 1, t, size).saturating_sub(before);
    before.saturating_add((here / 1024).saturating_mul(part.min(1024)))
}

// Steps to mark the sets of points below `v`: some for each prefix, and one for each of its words.
fn work_below(v: u64, t: u64, size: u64) -> u64
    requires few_points { v ≤ 99 }
    requires small { t ≤ 8 }
{
    let prefixes = binom(v, t.saturating_sub(size.max(1)));
    8 * prefixes + binom(v, t) / 64
}
