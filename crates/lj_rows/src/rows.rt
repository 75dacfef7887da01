ghost use Rattle.std.specs.Prelude.{◌≡◌, ◌↔◌, ◌≤◌, All, IsTrue, length, OnOk};
ghost use Rattle.std.specs.List.{AllByRecursion};
ghost use Rattle.std.specs.Bool.{OnTrue};
ghost use Rattle.lj_base.specs.Frames.{InFrame};
ghost use Rattle.lj_cover.specs.Instances.{cut_counts, has_row, rows_at};
ghost use Rattle.lj_induced.specs.Rows.{IsRowAt};

use lj_base::{Cell, Frame, Memory, Row};
use lj_cover::laws::{rows_are_of_uploads, rows_count_blocks};
use lj_deriv::MAX_ARENA_UPLOADS;
use lj_upload::Accepted;

/// Whether an upload has a row at the cell.
pub fn serves(up: &Accepted, c: Cell) -> bool
    ensures test { result ≡ has_row c up.now }
    ensures wide { OnTrue result (c.v ≤ up.now.cell.v) }
    ensures numbers { IsTrue result ↔ ((up.now.cell.t ≡ c.t) × (c.v ≤ up.now.cell.v)) }
{
    let cell = up.design().cell();
    cell.t == c.t && c.v <= cell.v
}

/// The row of an upload at a cell that has at most as many points.
pub fn row_of(frame: Frame, up: &Accepted, place: u32, c: Cell) -> Row
    requires inside { InFrame frame up.now.cell }
    requires wide { c.v ≤ up.now.cell.v }
    ensures row { result ≡ record { upload = place; counts = cut_counts c.v up.now.blocks } }
    ensures fits { IsRowAt frame c result }
{
    rows_count_blocks();
    let _ = up.design();
    Row {
        upload: place,
        counts: up.counts(u64::from(c.v)),
    }
}

/// Makes a list the rows at the cell, in the memory that it has where that suffices.
pub fn present_rows(
    uploads: &[Accepted],
    frame: Frame,
    c: Cell,
    rows: &mut Vec<Row>,
) -> Result<(), Memory>
    requires few { length uploads.now ≤ MAX_ARENA_UPLOADS }
    requires inside { AllByRecursion (λ u. InFrame frame u.cell) uploads.now }
    ensures rows { OnOk result (rows.new.items ≡ rows_at uploads.now c) }
    ensures fit { OnOk result (All (IsRowAt frame c) rows.new.items) }
{
    rows_are_of_uploads();
    rows.clear();
    for (i, up) in uploads.iter().enumerate() {
        if serves(up, c) {
            rows.push(row_of(frame, up, i as u32, c))?;
        }
    }
    Ok(())
}
