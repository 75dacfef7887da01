ghost use Rattle.std.specs.Prelude.{◌≡◌, ℕ, ◌+◌, ◌-◌, ◌*◌, ◌<◌, ◌≤◌, ◌↔◌, IsTrue, Some, length, min, slice_get};
ghost use Rattle.std.specs.Prelude.{slice_index};
ghost use Rattle.lj_base.specs.Bounds.{at_cell};
ghost use Rattle.lj_base.specs.Frames.{InFrame, before_k, cells_before_k, cells_before_v, cells_of, index_of, size_of};
ghost use Rattle.lj_base.specs.Frames.{up_to_v};

use crate::cells::Cell;
use crate::limits::MAX_CELLS;
use crate::offsets::offsets;
use std::marker::Model;

/// All cells whose three numbers are at most those of a top cell.
#[derive(Clone, Copy, Debug, PartialEq, Eq)]
pub struct Frame {
    pub top: Cell,
}

impl Model for Frame {
    ghost use Rattle.std.specs.Prelude.{◌≤◌};
    ghost use Rattle.lj_base.specs.Frames.{Top};

    ghost Value = { Top };

    ghost view = { λ f. record { top = f.top } };

    ghost invariant = { λ f. 1 ≤ f.top.k };

    ghost inverse = { λ f. record { top = f.top } };
}

impl Frame {
    pub fn new(top: Cell) -> Frame
        requires { 1 ≤ top.k }
        ensures { result ≡ record { top = top } }
    {
        Frame { top }
    }

    pub fn has(&self, c: Cell) -> bool
        ensures { IsTrue result ↔ InFrame self.now c }
    {
        c.v <= self.top.v && c.k <= self.top.k && c.t <= self.top.t
    }

    /// The number of its cells. It takes a few multiplications.
    pub fn size(&self) -> u64
        ensures size { result ≡ size_of self.now }
        ensures cells { result ≡ length (cells_of self.now) }
        ensures small { result ≤ MAX_CELLS }
    {
        let top = self.top;
        up_to(top.k as u64, top.t as u64, top.v as u64)
    }

    /// The place of a cell in ascending order of `v`, then `k`, then `t`, from 0. It takes a few multiplications.
    pub fn index(&self, c: Cell) -> u64
        requires { InFrame self.now c }
        ensures index { result ≡ index_of self.now c }
        ensures offsets { result ≡ cells_before_v self.now c.v + cells_before_k self.now c.k + c.t }
        ensures within { result < size_of self.now }
        ensures place { slice_get (cells_of self.now) result ≡ Some c }
    {
        let top = self.top;
        let (k, t) = (top.k as u64, top.t as u64);
        up_to(k, t, c.v as u64 - 1) + before(t, c.k as u64) + c.t as u64
    }

    /// The number of the frame's cells with a lesser `v`: the index of the first cell with this one.
    pub fn cells_before_v(&self, v: u8) -> u64
        requires some { 1 ≤ v }
        requires inside { v ≤ self.now.top.v }
        ensures count { result ≡ cells_before_v self.now v }
        ensures small { result ≤ MAX_CELLS }
    {
        let top = self.top;
        up_to(top.k as u64, top.t as u64, v as u64 - 1)
    }

    /// Of the frame's cells with one `v`, the number of those with a lesser `k`, whatever the `v` is.
    pub fn cells_before_k(&self, k: u8) -> u64
        requires { k ≤ self.now.top.k + 1 }
        ensures count { result ≡ cells_before_k self.now k }
        ensures small { result ≤ 26 * 9 }
    {
        before(self.top.t as u64, k as u64)
    }

    /// `cells_before_k` of each `k` up to 26. It is looked up.
    pub fn row_offsets(&self) -> &'static [usize; 27]
        ensures { (k : ℕ) → k ≤ 26 → slice_index result.now k ≡ cells_before_k self.now k }
    {
        let table = offsets();
        &table[self.top.t as usize]
    }

    /// The cell at a place. It takes about as many steps as the frame has numbers `v` and `k`.
    pub fn cell(&self, i: u64) -> Cell
        requires { i < size_of self.now }
        ensures within { InFrame self.now result }
        ensures index { index_of self.now result ≡ i }
        ensures place { slice_get (cells_of self.now) i ≡ Some result }
    {
        let top = self.top;
        let (v, place) = layer_at(top, i);
        row_at(top, v, place)
    }

    /// The number of a cell in a list that has one for each cell of the frame, in the order of `index`.
    pub fn at_cell(&self, numbers: &[u64], c: Cell) -> u64
        requires inside { InFrame self.now c }
        requires count { length numbers.now ≡ size_of self.now }
        ensures { result ≡ at_cell self.now numbers.now c }
    {
        numbers[self.index(c) as usize]
    }
}

// The v of the cell at a place, and the cell's place among those with that v. Above the greatest k each v has as many
// cells.
fn layer_at(top: Cell, i: u64) -> (u8, u64)
    requires { i < up_to_v top.k top.t top.v }
    ensures low { 1 ≤ result.0 }
    ensures high { result.0 ≤ top.v }
    ensures before { up_to_v top.k top.t (result.0 - 1) + result.1 ≡ i }
    ensures inside { result.1 < before_k top.t (min result.0 top.k + 1) }
{
    let low = layers(top.t as u64, top.k as u64);
    if i < low {
        return low_layer_at(top, i);
    }
    let layer = before(top.t as u64, top.k as u64 + 1) as u32;
    let above = (i - low) as u32;
    (top.k + 1 + (above / layer) as u8, (above % layer) as u64)
}

// The v of a cell at a place, and its place among those with that v, where v is at most the greatest k.
fn low_layer_at(top: Cell, i: u64) -> (u8, u64)
    requires { i < up_to_v top.k top.t top.k }
    ensures low { 1 ≤ result.0 }
    ensures high { result.0 ≤ top.k }
    ensures before { up_to_v top.k top.t (result.0 - 1) + result.1 ≡ i }
    ensures inside { result.1 < before_k top.t (min result.0 top.k + 1) }
{
    let mut rest = i;
    for v in 1..top.k + 1 {
        let layer = before(top.t as u64, v as u64 + 1);
        if rest < layer {
            return (v, rest);
        }
        rest -= layer;
    }
    unreachable!()
}

// The cell with this v at a place among those that have it.
fn row_at(top: Cell, v: u8, place: u64) -> Cell
    requires low { 1 ≤ v }
    requires high { v ≤ top.v }
    requires inside { place < before_k top.t (min v top.k + 1) }
    ensures within { InFrame (record { top = top }) result }
    ensures v { result.v ≡ v }
    ensures place { before_k top.t result.k + result.t ≡ place }
{
    let mut rest = place;
    for k in 0..v.min(top.k) + 1 {
        let row = k.min(top.t) as u64 + 1;
        if rest < row {
            return Cell {
                v,
                k,
                t: rest as u8,
            };
        }
        rest -= row;
    }
    unreachable!()
}

// The number of cells whose v is at most a number.
fn up_to(k: u64, t: u64, v: u64) -> u64
    requires small_k { k ≤ 25 }
    requires small_t { t ≤ 8 }
    requires small_v { v ≤ 99 }
    ensures up_to { result ≡ up_to_v k t v }
    ensures small { result ≤ MAX_CELLS }
{
    if v <= k {
        layers(t, v)
    } else {
        layers(t, k) + (v - k) * before(t, k + 1)
    }
}

// The number of cells with one v whose k is below a number.
fn before(t: u64, k: u64) -> u64
    requires small_t { t ≤ 8 }
    requires small_k { k ≤ 26 }
    ensures before { result ≡ before_k t k }
    ensures small { result ≤ 26 * 9 }
{
    if k <= t + 1 {
        k * (k + 1) / 2
    } else {
        (t + 1) * (t + 2) / 2 + (k - t - 1) * (t + 1)
    }
}

// The number of cells whose v is at most a number, where no k up to it is too great for the frame.
fn layers(t: u64, v: u64) -> u64
    requires small_t { t ≤ 8 }
    requires small_v { v ≤ 25 }
    ensures layers { (k : ℕ) → v ≤ k → result ≡ up_to_v k t v }
    ensures small { result ≤ 25 * (26 * 9) }
{
    if v <= t {
        (v + 1) * (v + 2) * (v + 3) / 6 - 1
    } else {
        let more = v - t;
        let full = (t + 1) * (t + 2) * (t + 3) / 6 - 1;
        full + more * ((t + 1) * (t + 2) / 2) + (t + 1) * (more * (more + 1) / 2)
    }
}
