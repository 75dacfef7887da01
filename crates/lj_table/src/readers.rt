ghost use Rattle.std.specs.Prelude.{◌≡◌, ◌≢◌, ◌<◌, ◌≤◌, ◌↔◌, IsTrue, length, min};
ghost use Rattle.lj_base.specs.Cells.{IsCell};
ghost use Rattle.lj_base.specs.Frames.{InFrame, size_of};
ghost use Rattle.lj_cover.specs.Instances.{Reads};
ghost use Rattle.lj_table.specs.Opening.{IsOpened, IsReopened};

use crate::closed::ClosedMap;
use crate::places::Places;
use lj_base::{Cell, Frame, index_law};
use lj_bitmap::RankMap;
use lj_relax::Dependents;

/// Opens each other cell that reads the cell. Cost: a few steps for each that comes before the last closed one.
pub fn open_readers(frame: Frame, c: Cell, closed: &mut ClosedMap, busy: &mut RankMap)
    requires inside { InFrame frame c }
    requires closed { length closed.old ≡ size_of frame }
    requires busy { length busy.old ≡ size_of frame }
    ensures { IsOpened frame (λ d. (d ≢ c) × Reads frame d c) closed.old busy.old closed.new busy.new }
{
    index_law();
    let last = closed.last();
    let mut readers = Dependents::of(frame, c);
    let mut places = Places::of(frame, c);
    while let Some(d) = readers.next() {
        let place = places.place(d);
        if place > last {
            return;
        }
        if is_other(d, c) {
            reopen(closed, busy, place);
        }
    }
}

/// Opens each cell that reads the cell, itself too where it does. Cost: that of `open_readers`.
pub fn open_all_readers(frame: Frame, c: Cell, closed: &mut ClosedMap, busy: &mut RankMap)
    requires inside { InFrame frame c }
    requires closed { length closed.old ≡ size_of frame }
    requires busy { length busy.old ≡ size_of frame }
    ensures { IsOpened frame (λ d. Reads frame d c) closed.old busy.old closed.new busy.new }
{
    index_law();
    let last = closed.last();
    let mut readers = Dependents::of(frame, c);
    let mut places = Places::of(frame, c);
    while let Some(d) = readers.next() {
        let place = places.place(d);
        if place > last {
            return;
        }
        reopen(closed, busy, place);
    }
}

/// Opens each cell of the same `t` that has at most as many points. Cost: a step for each.
pub fn open_served(frame: Frame, c: Cell, closed: &mut ClosedMap, busy: &mut RankMap)
    requires inside { InFrame frame c }
    requires closed { length closed.old ≡ size_of frame }
    requires busy { length busy.old ≡ size_of frame }
    ensures { IsOpened frame (λ d. (d.t ≡ c.t) × (d.v ≤ c.v)) closed.old busy.old closed.new busy.new }
{
    for v in 1..c.v + 1 {
        open_row(frame, v, c.t, closed, busy);
    }
}

// Opens each cell of this v and this t.
fn open_row(frame: Frame, v: u8, t: u8, closed: &mut ClosedMap, busy: &mut RankMap)
    requires some { 1 ≤ v }
    requires inside { v ≤ frame.top.v }
    requires within { t ≤ frame.top.t }
    requires closed { length closed.old ≡ size_of frame }
    requires busy { length busy.old ≡ size_of frame }
    ensures { IsOpened frame (λ d. (d.v ≡ v) × (d.t ≡ t)) closed.old busy.old closed.new busy.new }
{
    index_law();
    let most = most_k(frame, v);
    for k in t..most + 1 {
        let d = Cell { v, k, t };
        reopen(closed, busy, frame.index(d));
    }
}

// The greatest k of the frame's cells with this v.
fn most_k(frame: Frame, v: u8) -> u8
    ensures most { result ≡ min v frame.top.k }
    ensures limits { IsCell frame.top }
{
    v.min(frame.top.k)
}

fn is_other(d: Cell, c: Cell) -> bool
    ensures { IsTrue result ↔ (d ≢ c) }
{
    d.v != c.v || d.k != c.k || d.t != c.t
}

// Opens the cell at a place: where it was closed it is not taken then.
fn reopen(closed: &mut ClosedMap, busy: &mut RankMap, j: u64)
    requires closed { j < length closed.old }
    requires busy { j < length busy.old }
    ensures { IsReopened j closed.old busy.old closed.new busy.new }
{
    if closed.has(j) {
        closed.unmark(j);
        busy.unmark(j);
    }
}
