ghost use Rattle.std.specs.Prelude.{◌≡◌, ◌==◌, if◌then◌else◌, ◌∷◌, ◌++◌, [], OnErr, OnOk, codes, length};
ghost use Rattle.lj_base.specs.Frames.{size_of};
ghost use Rattle.lj_text.specs.Fields.{Extends};
ghost use Rattle.lj_report.specs.Reports.{report_line, report_text};

use crate::cells::ReportCells;
use lj_base::{Cell, Frame, Memory};
use lj_schonheim::schonheim;
use lj_text::{cut_back, put, put_joined};

/// Appends the report of the bounds of all cells, which are in the order of the frame's index: the line `report`, and a
/// line `V K T N L` for each cell with `1 <= t < k < v`, by t, k and v. N is its bound and L its lower number; the word
/// `optimal` follows where they are equal.
pub fn report_text(frame: Frame, bounds: &[u64], out: &mut Vec<u8>) -> Result<(), Memory>
    requires { length bounds.now ≡ size_of frame }
    ensures ok { OnOk result (out.new.items ≡ out.old.items ++ report_text frame bounds.now) }
    ensures err { OnErr result (out.new.items ≡ out.old.items) }
{
    let start = out.len();
    let result = append_lines(frame, bounds, out);
    cut_back(out, start, result)
}

// Appends the report; where memory ran out a part of it may have been appended.
fn append_lines(frame: Frame, bounds: &[u64], out: &mut Vec<u8>) -> Result<(), Memory>
    requires { length bounds.now ≡ size_of frame }
    ensures ok { OnOk result (out.new.items ≡ out.old.items ++ report_text frame bounds.now) }
    ensures err { OnErr result (Extends out.old.items out.new.items) }
{
    put(out, b"report\n")?;
    for cell in ReportCells::of(frame) {
        append_line(cell, frame.at_cell(bounds, cell), out)?;
    }
    Ok(())
}

// Appends the cell's line with its LF; where memory ran out a part of it may have been appended.
fn append_line(cell: Cell, bound: u64, out: &mut Vec<u8>) -> Result<(), Memory>
    ensures ok { OnOk result (out.new.items ≡ out.old.items ++ (report_line cell bound ++ 10 ∷ [])) }
    ensures err { OnErr result (Extends out.old.items out.new.items) }
{
    let lower = schonheim(cell);
    let numbers = [
        u64::from(cell.v),
        u64::from(cell.k),
        u64::from(cell.t),
        bound,
        lower,
    ];
    put_joined(out, b' ', &numbers)?;
    put(out, line_end(bound == lower))
}

// What follows a cell's numbers.
fn line_end(is_optimal: bool) -> &'static [u8]
    ensures { result.now ≡ (if is_optimal then codes " optimal" else []) ++ 10 ∷ [] }
{
    if is_optimal { b" optimal\n" } else { b"\n" }
}
