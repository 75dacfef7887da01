//! Laws of the definitions. Each function does nothing: its contract is the law.

ghost use Rattle.std.specs.Prelude.{◌≡◌, ◌≤◌, ◌↔◌, ℕ, List, length};
ghost use Rattle.std.specs.List.{AllPairs, Contains};
ghost use Rattle.lj_base.specs.Blocks.{Covers};
ghost use Rattle.lj_base.specs.Cells.{IsCell, Triple};
ghost use Rattle.lj_base.specs.Frames.{Top};
ghost use Rattle.lj_report.specs.ReportCells.{IsListed, IsListedBefore, report_cells};
ghost use Rattle.lj_report.specs.Reports.{lower_number};

use lj_cover::laws::schonheim_bounds;

/// A report lists the cells of its frame with `1 <= t < k < v`, each once, by t, then k, then v.
pub fn report_cells_law()
    ensures members { (f : Top) (c : Triple) → IsCell f.top → Contains (report_cells f) c ↔ IsListed f c }
    ensures order { (f : Top) → AllPairs IsListedBefore (report_cells f) }
{}

/// Where a listed cell's bound is its lower number, no covering of the cell is smaller.
pub fn optimal_law()
    ensures { (f : Top) (c : Triple) (bound : ℕ) (bs : List (List ℕ)) → IsListed f c → bound ≡ lower_number c
        → Covers bs c → bound ≤ length bs }
{
    schonheim_bounds();
}
