//! Lists of bounds for the tests.

ghost use Rattle.std.specs.Prelude.{◌≤◌, All, IsTrue};
ghost use Rattle.lj_base.specs.Bounds.{AreBounds};
ghost use Rattle.lj_base.specs.Cells.{IsCell};
ghost use Rattle.lj_base.specs.Colex.{choose};
ghost use Rattle.lj_induced.specs.Rows.{IsRowAt};

use lj_base::{Cell, Frame, MAX_BLOCKS, Row, binom, cells_law, index_law};
use std::alloc::{AllocError, Global};

/// Whether the numbers are bounds of the frame's cells.
pub fn are_bounds(frame: Frame, numbers: &[u64]) -> bool
    ensures { IsTrue result → AreBounds frame numbers.now }
{
    cells_law();
    index_law();
    has_limits(frame);
    if numbers.len() as u64 != frame.size() {
        return false;
    }
    for i in 0..frame.size() {
        if !is_bound(frame.cell(i), numbers[i as usize]) {
            return false;
        }
    }
    true
}

// A frame's greatest cell is within the limits. It does nothing.
fn has_limits(frame: Frame)
    ensures { IsCell frame.top }
{
    let _ = frame.top.v;
}

fn is_bound(c: Cell, n: u64) -> bool
    ensures { IsTrue result → (1 ≤ n) × (n ≤ choose c.v c.t) }
{
    1 <= n && n <= binom(u64::from(c.v), u64::from(c.t))
}

/// The bounds of a table in which nothing has been found yet: one block, runs, all blocks, or those of a smaller k.
pub fn fresh(alloc: Global, frame: Frame) -> Result<Vec<u64>, AllocError> {
    let mut numbers = Vec::new(alloc);
    for i in 0..frame.size() {
        numbers.push(first_bound(frame.cell(i)))?;
    }
    Ok(numbers)
}

fn first_bound(c: Cell) -> u64 {
    let (v, k, t) = (u64::from(c.v), u64::from(c.k), u64::from(c.t));
    if t == 0 || k == v {
        1
    } else if t == 1 {
        v.div_ceil(k)
    } else {
        binom(v, t)
    }
}

/// Bounds that differ from cell to cell and from list to list.
pub fn mixed(alloc: Global, frame: Frame, seed: u64) -> Result<Vec<u64>, AllocError> {
    let mut numbers = Vec::new(alloc);
    let mut state = seed;
    for i in 0..frame.size() {
        let c = frame.cell(i);
        state = state
            .wrapping_mul(6364136223846793005)
            .wrapping_add(1442695040888963407);
        let most = binom(u64::from(c.v), u64::from(c.t)).max(1);
        numbers.push((state >> 33) % most + 1)?;
    }
    Ok(numbers)
}

/// Whether a row may stand at the cell.
pub fn is_row(frame: Frame, cell: Cell, row: &Row) -> bool
    ensures { IsTrue result → IsRowAt frame cell row.now }
{
    let mut total = 0;
    for l in 0..26 {
        let count = row.counts[l];
        if count != 0 && (l > cell.v as usize || l > frame.top.k as usize) {
            return false;
        }
        total += u64::from(count);
    }
    total <= MAX_BLOCKS
}

/// Whether each row may stand at the cell.
pub fn are_rows(frame: Frame, cell: Cell, rows: &[Row]) -> bool
    ensures { IsTrue result → All (IsRowAt frame cell) rows.now }
{
    rows.iter().all(|row| is_row(frame, cell, row))
}

/// A row for the cell, of small counts.
pub fn mixed_row(frame: Frame, cell: Cell, seed: u32) -> Row {
    let most = cell.v.min(frame.top.k);
    let mut counts = [0; 26];
    for l in 0..26 {
        if l <= most as usize {
            counts[l] = (seed % 97 + l as u32 * 7) % 5;
        }
    }
    Row { upload: 0, counts }
}
