ghost use Rattle.std.specs.Prelude.{◌≡◌, ◌*◌, ◌≤◌, ◌∷◌, IfSome, Some, length};
ghost use Rattle.std.specs.Iterator.{YieldsFirst, item_count};
ghost use Rattle.std.specs.List.{AllByRecursion};
ghost use Rattle.lj_report.specs.ReportCells.{IsListed, cells_from, cells_from_t, report_cells};

use lj_base::{Cell, Frame};
use std::marker::Model;

/// A walk through the cells that a report of the frame lists, seen as those that are left. Each takes a few
/// comparisons.
#[derive(Drop)]
pub struct ReportCells {
    frame: Frame,
    coming: Option<Cell>,
}

impl Model for ReportCells {
    ghost use Rattle.std.specs.Prelude.{IfSome, List};
    ghost use Rattle.lj_base.specs.Cells.{Triple};
    ghost use Rattle.lj_report.specs.ReportCells.{IsListed, cells_from};

    ghost Value = { List Triple };

    ghost view = { λ w. cells_from w.frame w.coming };

    ghost invariant = { λ w. IfSome w.coming (IsListed w.frame) };
}

impl ReportCells {
    pub fn of(frame: Frame) -> ReportCells
        ensures walk { result ≡ report_cells frame }
        ensures listed { AllByRecursion (IsListed frame) result }
        ensures few { length result ≤ 8 * (25 * 99) }
    {
        ReportCells {
            frame,
            coming: first_from(frame, 1),
        }
    }
}

impl Iterator for ReportCells {
    type Item = Cell;

    ghost next_gives = { YieldsFirst (λ left. left) };

    ghost remaining = { item_count (λ left. left) };

    fn next(&mut self) -> Option<Cell> {
        let cell = self.coming?;
        self.coming = after(self.frame, cell);
        Some(cell)
    }
}

// The listed cell after one.
fn after(frame: Frame, c: Cell) -> Option<Cell>
    requires { IsListed frame c }
    ensures listed { IfSome result (IsListed frame) }
    ensures rest { cells_from frame (Some c) ≡ c ∷ cells_from frame result }
{
    let top = frame.top;
    let more_v = c.v < top.v;
    let more_k = c.k < top.k && c.k + 1 < top.v;
    if more_v {
        Some(Cell { v: c.v + 1, ..c })
    } else if more_k {
        Some(Cell {
            v: c.k + 2,
            k: c.k + 1,
            ..c
        })
    } else {
        first_from(frame, c.t + 1)
    }
}

// The first listed cell whose t is this or greater.
fn first_from(frame: Frame, t: u8) -> Option<Cell>
    requires some { 1 ≤ t }
    requires small { t ≤ 9 }
    ensures listed { IfSome result (IsListed frame) }
    ensures rest { cells_from frame result ≡ cells_from_t frame t }
    ensures all { AllByRecursion (IsListed frame) (cells_from_t frame t) }
    ensures few { length (cells_from_t frame t) ≤ 8 * (25 * 99) }
{
    let top = frame.top;
    if t <= top.t && t < top.k && t + 1 < top.v {
        Some(Cell {
            v: t + 2,
            k: t + 1,
            t,
        })
    } else {
        None
    }
}
