ghost use Rattle.std.specs.Prelude.{◌≡◌, ℕ, ◌+◌, ◌*◌, ◌<◌, ◌≤◌, ◌^◌, [], ◌∷◌, ◌++◌, drop, length, slice_index};
ghost use Rattle.lj_base.specs.Blocks.{Ascends, Has};
ghost use Rattle.lj_base.specs.Cells.{IsCell};
ghost use Rattle.lj_base.specs.Colex.{choose};
ghost use Rattle.lj_greedy.specs.Choices.{with_point};
ghost use Rattle.lj_greedy.specs.Gains.{Adds, AddsGap, AreGains, Fits, is_zero_at, one_at_zero, rows_after, rows_with};
ghost use Rattle.lj_rank.specs.Ranks.{rank_from};

use lj_base::{Block, COST_LIMIT, binom, choose_law};
use lj_cover::laws::points_are_tested;
use lj_excess::Counts;
use lj_rank::{TSet, rank_law};

// The gains of a block's points are kept while it grows. A set of one point less than the cell's sets is completed by
// each point that makes an open set of it; a point that comes to the block makes new such sets, each of the point and
// of sets of two points less that were there. Of one such set and a point p the rank is a sum for the set, which is the
// same for each p between two of its points, and the number of sets below p of as many points as stand up to it.

/// The gains of a block of no points, from zeros.
pub(crate) fn start_gains(counts: &Counts, gains: &mut [u64])
    requires len { length gains.old ≡ counts.now.cell.v }
    requires zeros { (p : ℕ) → p < length gains.old → slice_index gains.old p ≡ 0 }
    ensures gains { AreGains (is_zero_at counts.now.counts) counts.now.cell.t [] gains.new }
    ensures len { length gains.new ≡ length gains.old }
{
    if set_size(counts) == 1 {
        add_row(counts, gains, &TSet::empty());
    }
}

/// The gains of a block to which the point `q` comes. Cost: a few steps for each set of `t - 2` of its points and each
/// point of the cell.
pub(crate) fn add_to_gains(counts: &Counts, gains: &mut [u64], block: &Block, q: u8)
    requires len { length gains.old ≡ counts.now.cell.v }
    requires gains { AreGains (is_zero_at counts.now.counts) counts.now.cell.t block.now gains.old }
    requires block { Ascends 0 counts.now.cell.v block.now }
    requires short { length block.now < 25 }
    requires point { q < counts.now.cell.v }
    requires fresh { Has block.now q → ⊥ }
    ensures gains { AreGains (is_zero_at counts.now.counts) counts.now.cell.t (with_point q block.now) gains.new }
    ensures len { length gains.new ≡ length gains.old }
{
    choose_law();
    let t = set_size(counts);
    if t >= 2 {
        add_with(counts, gains, block, 0, t - 2, TSet::empty(), q);
    }
}

// Adds what each point completes of the sets of `row`, `q` and `left` of the block's points from a place on.
fn add_with(
    counts: &Counts,
    gains: &mut [u64],
    block: &Block,
    from: u64,
    left: u64,
    row: TSet,
    q: u8,
)
    requires cell { IsCell counts.now.cell }
    requires count { length counts.now.counts ≡ choose counts.now.cell.v counts.now.cell.t }
    requires size { length row + left + 2 ≡ counts.now.cell.t }
    requires len { length gains.old ≡ counts.now.cell.v }
    requires within { from ≤ length block.now }
    requires ascends { Ascends 0 counts.now.cell.v (row ++ with_point q (drop from block.now)) }
    requires fits { Fits (is_zero_at counts.now.counts) (rows_with row q left (drop from block.now)) gains.old }
    ensures { Adds (is_zero_at counts.now.counts) (rows_with row q left (drop from block.now)) gains.old gains.new }
{
    if left == 0 {
        return add_row(counts, gains, &longer(row, q));
    }
    for i in from..block.len() {
        let point = block.at(i);
        if q < point {
            return add_after(counts, gains, block, i, left, longer(row, q));
        }
        add_with(counts, gains, block, i + 1, left - 1, longer(row, point), q);
    }
}

// Adds what each point completes of the sets of `row` and `left` of the block's points from a place on.
fn add_after(counts: &Counts, gains: &mut [u64], block: &Block, from: u64, left: u64, row: TSet)
    requires cell { IsCell counts.now.cell }
    requires count { length counts.now.counts ≡ choose counts.now.cell.v counts.now.cell.t }
    requires size { length row + left + 1 ≡ counts.now.cell.t }
    requires len { length gains.old ≡ counts.now.cell.v }
    requires within { from ≤ length block.now }
    requires ascends { Ascends 0 counts.now.cell.v (row ++ drop from block.now) }
    requires fits { Fits (is_zero_at counts.now.counts) (rows_after row left (drop from block.now)) gains.old }
    ensures { Adds (is_zero_at counts.now.counts) (rows_after row left (drop from block.now)) gains.old gains.new }
{
    if left == 0 {
        return add_row(counts, gains, &row);
    }
    for i in from..block.len() {
        add_after(
            counts,
            gains,
            block,
            i + 1,
            left - 1,
            longer(row, block.at(i)),
        );
    }
}

/// The number of points of the cell's sets.
pub(crate) fn set_size(counts: &Counts) -> u64
    ensures value { result ≡ counts.now.cell.t }
    ensures limits { IsCell counts.now.cell }
    ensures count { length counts.now.counts ≡ choose counts.now.cell.v counts.now.cell.t }
{
    counts.cell().t as u64
}

// The set with a point after its others.
#[inline(always)]
fn longer(row: TSet, p: u8) -> TSet
    requires in_range { p < 99 }
    requires ascends { Ascends 0 99 (row ++ p ∷ []) }
    requires room { length row < 8 }
    ensures { result ≡ row ++ p ∷ [] }
{
    let mut set = row;
    set.push(p);
    set
}

// Adds 1 to the gain of each point that completes the set.
fn add_row(counts: &Counts, gains: &mut [u64], row: &TSet)
    requires cell { IsCell counts.now.cell }
    requires count { length counts.now.counts ≡ choose counts.now.cell.v counts.now.cell.t }
    requires size { length row.now + 1 ≡ counts.now.cell.t }
    requires len { length gains.old ≡ counts.now.cell.v }
    requires ascends { Ascends 0 counts.now.cell.v row.now }
    requires fits { Fits (is_zero_at counts.now.counts) (row.now ∷ []) gains.old }
    ensures { Adds (is_zero_at counts.now.counts) (row.now ∷ []) gains.old gains.new }
{
    points_are_tested();
    rank_law();
    choose_law();
    let mut base = raised_rank(row);
    let mut from = 0;
    for j in 0..row.len() {
        let point = row.at(j) as u64;
        add_gap(counts, gains, from, point, j + 1, base);
        base = base - binom(point, j + 2) + binom(point, j + 1);
        from = point + 1;
    }
    let v = gains.len() as u64;
    add_gap(counts, gains, from, v, row.len() + 1, base);
}

// The part of a rank that the set's points have where one point stands before all of them.
fn raised_rank(row: &TSet) -> u64
    requires { length row.now < 8 }
    ensures value { result ≡ rank_from 2 row.now }
    ensures small { result ≤ 8 * COST_LIMIT }
{
    choose_law();
    let mut sum = 0;
    for i in 0..row.len() {
        sum += binom(row.at(i) as u64, i + 2);
    }
    sum
}

// Adds 1 to the gain of each point of a gap that makes an open set, whose rank is `base` and the number of sets of
// `size` points below the point.
#[inline(always)]
fn add_gap(counts: &Counts, gains: &mut [u64], from: u64, to: u64, size: u64, base: u64)
    requires order { from ≤ to }
    requires within { to ≤ length gains.old }
    requires few { to ≤ 99 }
    requires small { size ≤ 8 }
    requires inside { (p : ℕ) → from ≤ p → p < to → base + choose p size < length counts.now.counts }
    requires long { length counts.now.counts < COST_LIMIT }
    requires fits { (p : ℕ) → from ≤ p → p < to →
        slice_index gains.old p + one_at_zero counts.now.counts (base + choose p size) < 2 ^ 64 }
    ensures { AddsGap counts.now.counts from to size base gains.old gains.new }
{
    for p in from..to {
        let open = if counts.at(base + binom(p, size)) == 0 {
            1
        } else {
            0
        };
        gains[p as usize] += open;
    }
}
