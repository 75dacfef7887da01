use crate::calls::{accept, settle, start};
use lj_base::{Cell, Memory};
use lj_deriv::Forest;
use lj_samples::fano_plane;
use lj_table::Table;
use std::alloc::Global;

const TRIPLES: Cell = Cell { v: 7, k: 3, t: 2 };

#[test]
fn a_forest_of_a_fresh_table_has_a_root_for_each_cell(rt: HostRuntime) -> Result<(), Memory> {
    let alloc = rt.alloc();
    let table = start(alloc, TRIPLES)?;
    assert!(rt; has_each_root(alloc, &table)?);
    Ok(())
}

#[test]
fn a_forest_of_a_settled_table_has_a_root_for_each_cell(rt: HostRuntime) -> Result<(), Memory> {
    let alloc = rt.alloc();
    let mut table = start(alloc, TRIPLES)?;
    assert!(rt; accept(alloc, &mut table, fano_plane(alloc)?)?);
    settle(alloc, &mut table)?;
    assert!(rt; has_each_root(alloc, &table)?);
    Ok(())
}

// Whether the table's forest has as many roots as its frame has cells, each of the cell at its place in index order,
// and at the cost of its bound.
fn has_each_root(alloc: Global, table: &Table) -> Result<bool, Memory> {
    let forest = table.forest(alloc)?;
    let cells = table.frame().size();
    let mut same = forest.roots() == cells;
    for place in 0..cells {
        same = same && has_root(table, &forest, place);
    }
    Ok(same)
}

fn has_root(table: &Table, forest: &Forest, place: u64) -> bool {
    let frame = table.frame();
    if place < frame.size() && place < forest.roots() {
        let cell = frame.cell(place);
        let root = forest.root(place);
        forest.cell_of(root) == cell && forest.cost_of(root) == table.bound(cell)
    } else {
        false
    }
}
