ghost use Rattle.std.specs.Prelude.{◌≡◌, ◌<◌, length, IfSome, None};
ghost use Rattle.lj_base.specs.Frames.{size_of};
ghost use Rattle.lj_table.specs.Claiming.{AllMarked, IsFirst, IsNext};
ghost use Rattle.lj_table.specs.Lowering.{IsGivenBack};

use crate::closed::ClosedMap;
use lj_base::{Cell, Frame, index_law};
use lj_bitmap::RankMap;

/// The first cell in index order that has no mark. Cost: a step for each 512 cells before it, and a few for each `k`.
pub fn first_unmarked(frame: Frame, marks: &RankMap) -> Option<Cell>
    requires { length marks.now ≡ size_of frame }
    ensures none { result ≡ None → AllMarked frame marks.now }
    ensures some { IfSome result (IsFirst frame marks.now) }
{
    index_law();
    match marks.first_clear() {
        Some(r) => Some(frame.cell(r)),
        None => None,
    }
}

/// The first open cell.
pub fn first_open_cell(frame: Frame, closed: &ClosedMap) -> Option<Cell>
    requires { length closed.now ≡ size_of frame }
    ensures none { result ≡ None → AllMarked frame closed.now }
    ensures some { IfSome result (IsFirst frame closed.now) }
{
    first_unmarked(frame, closed.marks())
}

/// The first open cell that is not taken, or else the first open cell.
pub fn next_cell(frame: Frame, closed: &ClosedMap, busy: &RankMap) -> Option<Cell>
    requires closed { length closed.now ≡ size_of frame }
    requires busy { length busy.now ≡ size_of frame }
    ensures none { result ≡ None → AllMarked frame closed.now }
    ensures some { IfSome result (IsNext frame closed.now busy.now) }
{
    match first_unmarked(frame, busy) {
        Some(c) => Some(c),
        None => first_open_cell(frame, closed),
    }
}

/// The cell at the place is no longer taken, and where the ticket agreed it is no longer open.
pub fn give_back(closed: &mut ClosedMap, busy: &mut RankMap, i: u64, agreed: bool)
    requires closed { i < length closed.old }
    requires busy { i < length busy.old }
    ensures { IsGivenBack i agreed closed.old busy.old closed.new busy.new }
{
    if agreed {
        closed.mark(i);
    }
    if closed.has(i) {
        busy.mark(i);
    } else {
        busy.unmark(i);
    }
}
