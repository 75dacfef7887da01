ghost use Rattle.std.specs.Prelude.{◌≡◌, ℕ, ◌≤◌, ◌<◌, ◌↔◌, [], All, IfSome, None, length, slice_index, sum};
ghost use Rattle.lj_base.specs.Bounds.{AreBounds, at_cell};
ghost use Rattle.lj_base.specs.Cells.{IsCell};
ghost use Rattle.lj_base.specs.Frames.{InFrame};
ghost use Rattle.lj_cover.specs.Instances.{row_price};
ghost use Rattle.lj_cover.specs.Rules.{cut_cost, triple};
ghost use Rattle.lj_induced.specs.Rows.{AreCutPrices, IsLeastInduced, IsRowAt, weighted_sum};

use crate::choices::InducedChoice;
use lj_base::{COST_LIMIT, Cell, Frame, MAX_BLOCKS, Row, choose_law};

/// The row of least price at the cell. The prices of cuts are read once, so that a row costs 26 multiplications. It
/// takes no memory.
pub fn best_induced(frame: Frame, bounds: &[u64], rows: &[Row], cell: Cell) -> Option<InducedChoice>
    requires inside { InFrame frame cell }
    requires bounds { AreBounds frame bounds.now }
    requires rows { All (IsRowAt frame cell) rows.now }
    ensures least { IfSome result (IsLeastInduced (at_cell frame bounds.now) cell rows.now) }
    ensures none { (result ≡ None) ↔ (rows.now ≡ []) }
{
    if rows.is_empty() {
        return None;
    }
    let prices = cut_prices(frame, bounds, cell);
    let mut place = 0;
    let mut cost = price_of(&rows[0], &prices);
    for i in 1..rows.len() {
        let price = price_of(&rows[i], &prices);
        if price < cost {
            cost = price;
            place = i as u64;
        }
    }
    Some(InducedChoice { place, cost })
}

// The price of a row, from the prices of cuts.
fn price_of(row: &Row, prices: &[u64; 26]) -> u64
    requires few { sum row.now.counts ≤ MAX_BLOCKS }
    requires small { (l : ℕ) → slice_index prices.now l ≤ COST_LIMIT }
    ensures price { result ≡ weighted_sum row.now.counts prices.now }
    ensures len { length row.now.counts ≡ 26 }
{
    let mut price = 0;
    for l in 0..26 {
        price += u64::from(row.counts[l]) * prices[l];
    }
    price
}

// The price of a cut of each number of points that the cell and a block of the frame have.
fn cut_prices(frame: Frame, bounds: &[u64], cell: Cell) -> [u64; 26]
    requires inside { InFrame frame cell }
    requires bounds { AreBounds frame bounds.now }
    ensures prices { AreCutPrices frame (at_cell frame bounds.now) cell result }
    ensures small { (l : ℕ) → slice_index result l ≤ COST_LIMIT }
    ensures len { length result ≡ 26 }
{
    let mut prices = [0; 26];
    for l in cell.t as usize..most_points(frame, cell) + 1 {
        prices[l] = cut_price(frame, bounds, cell, l);
    }
    prices
}

// The most points that a cut can have.
fn most_points(frame: Frame, cell: Cell) -> usize
    requires inside { InFrame frame cell }
    ensures points { result ≤ cell.v }
    ensures blocks { result ≤ frame.top.k }
    ensures most { (l : ℕ) → l ≤ cell.v → l ≤ frame.top.k → l ≤ result }
    ensures small { result ≤ 25 }
    ensures sets { cell.t ≤ result }
{
    cell.v.min(frame.top.k) as usize
}

// What a cut of l points costs.
fn cut_price(frame: Frame, bounds: &[u64], cell: Cell, l: usize) -> u64
    requires inside { InFrame frame cell }
    requires bounds { AreBounds frame bounds.now }
    requires enough { cell.t ≤ l }
    requires points { l ≤ cell.v }
    requires blocks { l ≤ frame.top.k }
    ensures cost { result ≡ cut_cost cell.t cell.k (at_cell frame bounds.now (triple l cell.k cell.t)) l }
    ensures small { result ≤ COST_LIMIT }
{
    choose_law();
    match child_for(cell, l) {
        None => 1,
        Some(child) => bounds[frame.index(child) as usize],
    }
}

// The cell whose blocks take the place of a cut, where the cut has more than k points.
fn child_for(cell: Cell, l: usize) -> Option<Cell>
    requires limits { IsCell cell }
    requires points { l ≤ cell.v }
    ensures none { result ≡ None → l ≤ cell.k }
    ensures some { IfSome result (λ child. (cell.k < l) × (child ≡ triple l cell.k cell.t)) }
{
    if l <= cell.k as usize {
        return None;
    }
    Some(Cell {
        v: l as u8,
        k: cell.k,
        t: cell.t,
    })
}
