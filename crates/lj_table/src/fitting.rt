ghost use Rattle.std.specs.Prelude.{◌≡◌, ◌≢◌, ◌↔◌, ◌<◌, ◌≤◌, All, IfSome, IsSome, IsTrue, false, length, true};
ghost use Rattle.lj_base.specs.Bounds.{at_cell};
ghost use Rattle.lj_base.specs.Cells.{Triple};
ghost use Rattle.lj_base.specs.Frames.{InFrame, size_of};
ghost use Rattle.lj_cover.specs.Instances.{IsRowOf, cut_counts};
ghost use Rattle.lj_table.specs.Tables.{AreNodes, IsNodeOf, IsTestAt};

use crate::differences::{are_equal, next_difference};
use lj_base::{Cell, Frame, Row, index_law};
use lj_deriv::Arena;
use lj_rows::serves;
use lj_upload::Accepted;

/// Where each cell's node is there, is of that cell and costs its number, whether the bounds are the table's own. Own
/// nodes and bounds are known to be such, so that only those that differ from them are looked up. Cost: a comparison of
/// the lists, and a few steps for each cell at which they differ.
pub fn are_nodes(
    frame: Frame,
    arena: &Arena,
    own_nodes: &[u64],
    own_bounds: &[u64],
    nodes: &[u64],
    bounds: &[u64],
) -> Option<bool>
    requires own { AreNodes frame arena.now own_nodes.now own_bounds.now }
    requires own_nodes { length own_nodes.now ≡ size_of frame }
    requires own_bounds { length own_bounds.now ≡ size_of frame }
    requires nodes { length nodes.now ≡ size_of frame }
    requires bounds { length bounds.now ≡ size_of frame }
    ensures nodes { IsSome result ↔ AreNodes frame arena.now nodes.now bounds.now }
    ensures same { IfSome result (λ same. IsTrue same ↔ (bounds.now ≡ own_bounds.now)) }
{
    if !are_nodes_where_differ(frame, arena, own_nodes, nodes, nodes, bounds) {
        return None;
    }
    if are_equal(own_bounds, bounds) {
        return Some(true);
    }
    if are_nodes_where_differ(frame, arena, own_bounds, bounds, nodes, bounds) {
        Some(false)
    } else {
        None
    }
}

// Whether each cell's node is there, is of that cell and costs its number, at the places at which two lists differ.
fn are_nodes_where_differ(
    frame: Frame,
    arena: &Arena,
    old: &[u64],
    new: &[u64],
    nodes: &[u64],
    bounds: &[u64],
) -> bool
    requires old { length old.now ≡ size_of frame }
    requires new { length new.now ≡ size_of frame }
    requires nodes { length nodes.now ≡ size_of frame }
    requires bounds { length bounds.now ≡ size_of frame }
    ensures each { IsTrue result → (c : Triple) → InFrame frame c
        → at_cell frame old.now c ≢ at_cell frame new.now c
        → IsNodeOf arena.now (at_cell frame nodes.now c) c (at_cell frame bounds.now c) }
    ensures other { result ≡ false → AreNodes frame arena.now nodes.now bounds.now → ⊥ }
{
    index_law();
    let mut from = 0;
    while let Some(j) = next_difference(old, new, from) {
        if !is_node_at(frame, arena, j as u64, nodes[j], bounds[j]) {
            return false;
        }
        from = j + 1;
    }
    true
}

// Whether the node is one of the cell at the place.
fn is_node_at(frame: Frame, arena: &Arena, j: u64, node: u64, bound: u64) -> bool
    requires { j < size_of frame }
    ensures { IsTestAt frame j (λ c. IsNodeOf arena.now node c bound) result }
{
    is_node_of(arena, node, frame.cell(j), bound)
}

fn is_node_of(arena: &Arena, node: u64, c: Cell, bound: u64) -> bool
    ensures { IsTrue result ↔ IsNodeOf arena.now node c bound }
{
    node < arena.len() && is_cell(arena.cell(node), c) && arena.cost(node) == bound
}

fn is_cell(c: Cell, d: Cell) -> bool
    ensures { IsTrue result ↔ (c ≡ d) }
{
    c.v == d.v && c.k == d.k && c.t == d.t
}

/// Whether each row is the row at the cell of the upload at its place.
pub fn are_rows(uploads: &[Accepted], c: Cell, rows: &[Row]) -> bool
    ensures { IsTrue result ↔ All (IsRowOf uploads.now c) rows.now }
{
    for row in rows {
        if !is_row_of(uploads, c, row) {
            return false;
        }
    }
    true
}

fn is_row_of(uploads: &[Accepted], c: Cell, row: &Row) -> bool
    ensures { IsTrue result ↔ IsRowOf uploads.now c row.now }
{
    let place = row.upload as usize;
    place < uploads.len() && is_row_with(&uploads[place], c, row)
}

fn is_row_with(up: &Accepted, c: Cell, row: &Row) -> bool
    ensures { IsTrue result ↔ ((up.now.cell.t ≡ c.t) × (c.v ≤ up.now.cell.v)
        × (row.now.counts ≡ cut_counts c.v up.now.blocks)) }
{
    serves(up, c) && has_counts(up, c, row)
}

fn has_counts(up: &Accepted, c: Cell, row: &Row) -> bool
    requires { c.v ≤ up.now.cell.v }
    ensures { IsTrue result ↔ (row.now.counts ≡ cut_counts c.v up.now.blocks) }
{
    let counts = up.counts(u64::from(c.v));
    row.counts.as_slice() == counts.as_slice()
}
