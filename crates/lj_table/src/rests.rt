ghost use Rattle.std.specs.Prelude.{◌≡◌, ◌≤◌, All, IfOk, drop, length};
ghost use Rattle.std.specs.Bool.{OnTrue};
ghost use Rattle.lj_base.specs.Bounds.{AreBounds, at_cell};
ghost use Rattle.lj_base.specs.Frames.{InFrame};
ghost use Rattle.lj_cover.specs.Instances.{row_price};
ghost use Rattle.lj_induced.specs.Rows.{IsRowAt};
ghost use Rattle.lj_table.specs.Settling.{HasRested, NoneCheaper};
ghost use Rattle.lj_table.specs.Tables.{IsTable, contents_of};

use crate::store::Store;
use lj_base::{Cell, Frame, Memory, Row};
use lj_cover::laws::{price_by_row, rows_are_of_uploads};
use lj_induced::best_induced;
use lj_relax::laws::bounds_are_positive;
use lj_rows::present_rows;
use lj_upload::Accepted;

/// When a table was at rest: how many uploads and how many nodes it had.
#[derive(Clone, Copy)]
pub struct Rest {
    pub uploads: usize,
    pub nodes: u64,
}

impl Store {
    /// Whether no bound has fallen since the table was at rest, and no row of an upload that it has taken since is
    /// cheaper at the cell than the bound. Cost: a step for each of these uploads.
    pub fn is_least_since(&self, rest: Rest, c: Cell, rows: &mut Vec<Row>) -> Result<bool, Memory>
        requires inside { InFrame self.now.arena.frame c }
        requires table { IsTable (contents_of self.now) }
        requires rest { HasRested self.now.arena self.now.bounds.items rest }
        ensures { IfOk result (λ least. OnTrue least
            (NoneCheaper self.now.arena.frame self.now.bounds.items self.now.arena.uploads c)) }
    {
        price_by_row();
        rows_are_of_uploads();
        bounds_are_positive();
        if self.arena.len() != rest.nodes {
            return Ok(false);
        }
        let frame = self.arena.frame();
        let later = from_place(self.arena.uploads(), rest.uploads);
        present_rows(later, frame, c, rows)?;
        Ok(none_is_cheaper(frame, &self.bounds, rows, c))
    }
}

// The uploads from the place on.
fn from_place(uploads: &[Accepted], place: usize) -> &[Accepted]
    requires { place ≤ length uploads.now }
    ensures { result.now ≡ drop place uploads.now }
{
    &uploads[place..]
}

// Whether no row is cheaper at the cell than the bound.
fn none_is_cheaper(frame: Frame, bounds: &[u64], rows: &[Row], c: Cell) -> bool
    requires inside { InFrame frame c }
    requires bounds { AreBounds frame bounds.now }
    requires rows { All (IsRowAt frame c) rows.now }
    ensures { OnTrue result (All (λ (row : Row). at_cell frame bounds.now c
        ≤ row_price (at_cell frame bounds.now) c row.counts) rows.now) }
{
    match best_induced(frame, bounds, rows, c) {
        Some(choice) => frame.at_cell(bounds, c) <= choice.cost,
        None => true,
    }
}
