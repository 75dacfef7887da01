ghost use Rattle.std.specs.Prelude.{◌≡◌, ◌⊎◌, ℕ, ◌≤◌, true, IfOk, List, length};
ghost use Rattle.std.specs.List.{AllByRecursion};
ghost use Rattle.lj_base.specs.Bounds.{AreBounds, at_cell};
ghost use Rattle.lj_base.specs.Cells.{Triple};
ghost use Rattle.lj_base.specs.Frames.{InFrame, Top};
ghost use Rattle.lj_base.specs.declared.limits.TheConstants.{MAX_CELLS};
ghost use Rattle.lj_cover.specs.Instances.{AreUploads};
ghost use Rattle.lj_cover.specs.Rules.{Upload};
ghost use Rattle.lj_deriv.specs.declared.limits.TheConstants.{MAX_ARENA_UPLOADS};
ghost use Rattle.lj_relax.specs.Steps.{IsAtMost};
ghost use Rattle.lj_verify.specs.declared.limits.TheConstants.{MAX_WORKERS};
ghost use Rattle.lj_cert.specs.Good.{IsRuleCost};
ghost use Rattle.lj_cert.specs.Lowest.{AreMarkedAtRest, AreOffered, IsInPiece, IsLeastOf, IsLowest, IsOfferCost};
ghost use Rattle.lj_cert.specs.Lowest.{IsPieceAtRest, IsPlainCost};

use lj_base::{Cell, Frame, Memory, Row, binom, index_law};
use lj_cover::laws::{
    costs_are_positive, induced_has_instances, price_by_row, rows_are_of_uploads,
};
use lj_cover::runs_count;
use lj_deriv::Arena;
use lj_relax::least_price;
use lj_rows::present_rows;
use lj_upload::Accepted;
use lj_verify::MAX_WORKERS;
use rayon::prelude::*;
use std::alloc::Global;
use std::sync::atomic::{AtomicU64, Ordering};
use std::thread::Threads;

// A cell at which a rule costs less than the bound, with its place and the least cost there.
#[derive(Clone, Copy, Debug)]
pub(crate) struct LowCell {
    pub place: u64,
    pub cell: Cell,
    pub cost: u64,
}

/// How many cells, one after another, are dealt out at a time: few enough that no worker is left with much at the end,
/// and enough that the counter costs nothing beside them.
const PIECE_CELLS: u64 = 32;

/// The first cell of the frame at which a rule costs less than the bound. The workers take pieces of the frame from a
/// counter until the pieces end; the result depends neither on how many workers there are nor on which took what.
pub(crate) fn first_low<R: Threads + Sync>(
    rt: &R,
    alloc: Global,
    arena: &Arena,
    bounds: &[u64],
    workers: u64,
) -> Result<Option<LowCell>, Memory>
    requires bounds { AreBounds arena.now.frame bounds.now }
    requires uploads { AreUploads arena.now.frame arena.now.uploads }
    requires some_workers { 1 ≤ workers }
    requires few_workers { workers ≤ MAX_WORKERS }
    ensures { IfOk result (IsLowest arena.now.frame arena.now.uploads (at_cell arena.now.frame bounds.now)
        (λ _. Unit {0})) }
{
    let next = AtomicU64::new(0);
    let done: Vec<Result<Vec<bool>, Memory>> = (0..workers)
        .into_par_iter()
        .with_min_len(1)
        .map(
            |_worker: u64| -> Result<Vec<bool>, Memory>
                requires bounds { AreBounds arena.now.frame bounds.now }
                requires uploads { AreUploads arena.now.frame arena.now.uploads }
                ensures { IfOk result (λ marks. AreMarkedAtRest arena.entry.now.frame arena.entry.now.uploads
                    (at_cell arena.entry.now.frame bounds.entry.now) marks.items) }
            { work(alloc, arena, bounds, &next) },
        )
        .collect(rt, alloc)?;
    low_after(alloc, arena, bounds, &done)
}

// Takes pieces from the counter until they end or one has a low cell, and marks those that have none. What the counter
// holds is not relied on: each mark stands for what was done here.
fn work(alloc: Global, arena: &Arena, bounds: &[u64], next: &AtomicU64) -> Result<Vec<bool>, Memory>
    requires bounds { AreBounds arena.now.frame bounds.now }
    requires uploads { AreUploads arena.now.frame arena.now.uploads }
    ensures { IfOk result (λ marks. AreMarkedAtRest arena.now.frame arena.now.uploads
        (at_cell arena.now.frame bounds.now) marks.items) }
{
    let count = arena.frame().size().div_ceil(PIECE_CELLS);
    let mut marks = vec![in alloc; false; count as usize]?;
    let mut rows = Vec::new(alloc);
    for _ in 0..count {
        let piece = next.fetch_add(1, Ordering::SeqCst);
        if piece >= count || low_in(arena, bounds, piece, &mut rows)?.is_some() {
            break;
        }
        marks[piece as usize] = true;
    }
    Ok(marks)
}

// The first low cell, after the workers. The pieces are gone through in order, and those that nobody has marked are
// done here: the first that has a low cell, and any that the counter left out.
fn low_after(
    alloc: Global,
    arena: &Arena,
    bounds: &[u64],
    done: &[Result<Vec<bool>, Memory>],
) -> Result<Option<LowCell>, Memory>
    requires bounds { AreBounds arena.now.frame bounds.now }
    requires uploads { AreUploads arena.now.frame arena.now.uploads }
    requires done { AllByRecursion (λ marks. IfOk marks (λ m. AreMarkedAtRest arena.now.frame arena.now.uploads
        (at_cell arena.now.frame bounds.now) m.items)) done.now }
    ensures { IfOk result (IsLowest arena.now.frame arena.now.uploads (at_cell arena.now.frame bounds.now)
        (λ _. Unit {0})) }
{
    index_law();
    let count = arena.frame().size().div_ceil(PIECE_CELLS);
    let mut rows = Vec::new(alloc);
    for piece in 0..count {
        if !is_marked(done, piece)? {
            let low = low_in(arena, bounds, piece, &mut rows)?;
            if low.is_some() {
                return Ok(low);
            }
        }
    }
    Ok(None)
}

// Whether one of the workers has marked the piece.
fn is_marked(done: &[Result<Vec<bool>, Memory>], piece: u64) -> Result<bool, Memory>
    ensures { (frame : Top) (uploads : List Upload) (bounds : Triple → ℕ)
        → AllByRecursion (λ marks. IfOk marks (λ m. AreMarkedAtRest frame uploads bounds m.items)) done.now
        → IfOk result (λ marked. marked ≡ true → IsPieceAtRest frame uploads bounds piece) }
{
    for marks in done {
        match marks {
            Ok(marks) => {
                if let Some(true) = marks.get(piece as usize) {
                    return Ok(true);
                }
            }
            Err(memory) => return Err(*memory),
        }
    }
    Ok(false)
}

// The first low cell of the piece.
fn low_in(
    arena: &Arena,
    bounds: &[u64],
    piece: u64,
    rows: &mut Vec<Row>,
) -> Result<Option<LowCell>, Memory>
    requires bounds { AreBounds arena.now.frame bounds.now }
    requires uploads { AreUploads arena.now.frame arena.now.uploads }
    requires few { piece ≤ MAX_CELLS }
    ensures { IfOk result (IsLowest arena.now.frame arena.now.uploads (at_cell arena.now.frame bounds.now)
        (IsInPiece piece)) }
{
    index_law();
    let frame = arena.frame();
    let mut place = piece * PIECE_CELLS;
    let end = frame.size().min(place + PIECE_CELLS);
    while place < end {
        let cell = frame.cell(place);
        let cost = least_cost(arena.uploads(), frame, bounds, cell, rows)?;
        if let Some(cost) = cost {
            if cost < bounds[place as usize] {
                return Ok(Some(LowCell { place, cell, cost }));
            }
        }
        place += 1;
    }
    Ok(None)
}

// The least cost of a rule at the cell.
fn least_cost(
    uploads: &[Accepted],
    frame: Frame,
    bounds: &[u64],
    cell: Cell,
    rows: &mut Vec<Row>,
) -> Result<Option<u64>, Memory>
    requires inside { InFrame frame cell }
    requires bounds { AreBounds frame bounds.now }
    requires uploads { AreUploads frame uploads.now }
    requires held { AllByRecursion (λ u. InFrame frame u.cell) uploads.now }
    requires few { length uploads.now ≤ MAX_ARENA_UPLOADS }
    ensures { IfOk result (IsLeastOf (IsRuleCost frame uploads.now (at_cell frame bounds.now) cell)) }
{
    price_by_row();
    induced_has_instances();
    rows_are_of_uploads();
    present_rows(uploads, frame, cell, rows)?;
    let price = least_price(frame, bounds, rows, cell);
    let base = lesser(plain_cost(cell), offered_cost(uploads, cell));
    Ok(lesser(base, price))
}

// What the rules cost that need nothing.
fn plain_cost(cell: Cell) -> Option<u64>
    ensures { IsLeastOf (IsPlainCost cell) result }
{
    costs_are_positive();
    if cell.t == 0 || cell.k == cell.v {
        Some(1)
    } else if cell.t == 1 {
        Some(runs_count(cell))
    } else if cell.t == cell.k {
        Some(binom(u64::from(cell.v), u64::from(cell.k)))
    } else {
        None
    }
}

// The least that an upload offers at the cell without children.
fn offered_cost(uploads: &[Accepted], cell: Cell) -> Option<u64>
    ensures { IsLeastOf (AreOffered uploads.now cell) result }
{
    let mut least = None;
    for up in uploads {
        least = lesser(least, offer(up, cell));
    }
    least
}

// What one upload offers at the cell.
fn offer(up: &Accepted, cell: Cell) -> Option<u64>
    ensures { IsLeastOf (IsOfferCost up.now cell) result }
{
    let own = up.design().cell();
    if own == cell {
        return Some(up.design().blocks().len() as u64);
    }
    if own.v == cell.v + 1 && own.k == cell.k + 1 && own.t == cell.t + 1 {
        return Some(up.least().1);
    }
    if own.v == cell.v + 2 && own.k == cell.k + 2 && own.t == cell.t + 2 {
        return Some(up.least_pair().2);
    }
    None
}

// The lesser of two costs.
fn lesser(first: Option<u64>, second: Option<u64>) -> Option<u64>
    ensures one { (result ≡ first) ⊎ (result ≡ second) }
    ensures first { (n : ℕ) → IsAtMost first n → IsAtMost result n }
    ensures second { (n : ℕ) → IsAtMost second n → IsAtMost result n }
{
    match (first, second) {
        (Some(f), Some(s)) => Some(f.min(s)),
        (Some(_), None) => first,
        (None, _) => second,
    }
}
