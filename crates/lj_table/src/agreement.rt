ghost use Rattle.std.specs.Prelude.{◌≡◌, ◌↔◌, ℕ, ◌<◌, ◌≤◌, IsTrue, length, true};
ghost use Rattle.std.specs.List.{AllByRecursion, HoldsAt};
ghost use Rattle.lj_base.specs.Bounds.{at_cell};
ghost use Rattle.lj_base.specs.Cells.{Triple};
ghost use Rattle.lj_base.specs.Frames.{InFrame, size_of};
ghost use Rattle.lj_base.specs.declared.Row.{Row as RowOf};
ghost use Rattle.lj_cover.specs.Instances.{Reads, rows_at};
ghost use Rattle.lj_deriv.specs.Nodes.{Nodes};
ghost use Rattle.lj_table.specs.Lowering.{AgreesWith};
ghost use Rattle.lj_table.specs.Tables.{Fits, IsTestAt};

use crate::differences::next_difference;
use lj_base::{Cell, Frame, Row, index_law};
use lj_cover::laws::rows_are_of_uploads;
use lj_deriv::{Arena, MAX_ARENA_UPLOADS};
use lj_relax::{Ticket, reads};
use lj_rows::{row_of, serves};
use lj_upload::Accepted;

/// Whether a ticket's rows are those of now, and its bounds are so at each cell that its cell reads. Where it is not
/// known that all its bounds are those of now, it costs a comparison of the two lists.
pub fn agrees(arena: &Arena, bounds: &[u64], ticket: &Ticket, same: bool) -> bool
    requires fits { Fits arena.now ticket.now }
    requires same { same ≡ true → ticket.now.bounds ≡ bounds.now }
    requires count { length bounds.now ≡ size_of arena.now.frame }
    ensures { IsTrue result ↔ AgreesWith arena.now bounds.now ticket.now }
{
    let c = ticket.cell();
    let frame = ticket.frame();
    same_rows(arena.uploads(), frame, c, ticket.rows())
        && (same || same_bounds(frame, c, ticket.bounds(), bounds))
}

// Whether both lists have the same number at each cell that the cell reads.
fn same_bounds(frame: Frame, c: Cell, old: &[u64], new: &[u64]) -> bool
    requires inside { InFrame frame c }
    requires old { length old.now ≡ size_of frame }
    requires new { length new.now ≡ size_of frame }
    ensures { IsTrue result ↔ ((d : Triple) → InFrame frame d → Reads frame c d
        → at_cell frame old.now d ≡ at_cell frame new.now d) }
{
    index_law();
    let mut from = 0;
    while let Some(j) = next_difference(old, new, from) {
        if reads_at(frame, c, j as u64) {
            return false;
        }
        from = j + 1;
    }
    true
}

// Whether the cell reads the one at the place.
fn reads_at(frame: Frame, c: Cell, j: u64) -> bool
    requires inside { InFrame frame c }
    requires place { j < size_of frame }
    ensures { IsTestAt frame j (Reads frame c) result }
{
    reads(frame, c, frame.cell(j))
}

/// Whether the rows are those of the uploads at the cell.
pub fn same_rows(uploads: &[Accepted], frame: Frame, c: Cell, rows: &[Row]) -> bool
    requires few { length uploads.now ≤ MAX_ARENA_UPLOADS }
    requires inside { AllByRecursion (λ u. InFrame frame u.cell) uploads.now }
    ensures { IsTrue result ↔ (rows.now ≡ rows_at uploads.now c) }
{
    rows_are_of_uploads();
    let mut place = 0;
    for (i, up) in uploads.iter().enumerate() {
        if serves(up, c) {
            if !is_row_at(rows, place, &row_of(frame, up, i as u32, c)) {
                return false;
            }
            place += 1;
        }
    }
    place == rows.len()
}

// Whether the list has the row at the place.
fn is_row_at(rows: &[Row], place: usize, row: &Row) -> bool
    ensures { IsTrue result ↔ ((place < length rows.now) × HoldsAt (λ r. r ≡ row.now) rows.now place) }
{
    place < rows.len() && is_same(&rows[place], row)
}

// Whether two rows have the same place and the same counts.
fn is_same(a: &Row, b: &Row) -> bool
    ensures { IsTrue result ↔ (a.now ≡ b.now) }
{
    a.upload == b.upload && a.counts.as_slice() == b.counts.as_slice()
}
