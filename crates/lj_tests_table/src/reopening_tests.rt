use crate::calls::{accept, has_bound, is_open, settle, start};
use lj_base::{Cell, Memory};
use lj_cover::Design;
use lj_relax::reads;
use lj_samples::{block, covering, fano_plane};
use lj_table::Table;
use std::alloc::Global;

const TRIPLES: Cell = Cell { v: 7, k: 3, t: 2 };

const SIX: Cell = Cell { v: 6, k: 3, t: 2 };

#[test]
fn an_upload_at_the_last_cell_opens_each_of_its_readers(rt: HostRuntime) -> Result<(), Memory> {
    assert!(rt; opens_readers_of_the_last(rt.alloc())?);
    Ok(())
}

fn opens_readers_of_the_last(alloc: Global) -> Result<bool, Memory> {
    let mut table = start(alloc, TRIPLES)?;
    let opened = opens_each_reader(alloc, &mut table, fano_plane(alloc)?, TRIPLES)?;
    let readers = is_open(&table, Cell { v: 6, k: 3, t: 2 })
        && is_open(&table, Cell { v: 7, k: 3, t: 1 });
    // these two, and the other ten with t = 2
    Ok(opened && has_bound(&table, TRIPLES, 7) && readers && open_cells(&table) == 12)
}

#[test]
fn the_last_cell_opens_where_a_cell_that_it_reads_has_fallen(
    rt: HostRuntime,
) -> Result<(), Memory> {
    assert!(rt; opens_the_last(rt.alloc())?);
    Ok(())
}

fn opens_the_last(alloc: Global) -> Result<bool, Memory> {
    let mut table = start(alloc, TRIPLES)?;
    let opened = opens_each_reader(alloc, &mut table, six_triples(alloc)?, SIX)?;
    let readers = is_open(&table, TRIPLES) && is_open(&table, Cell { v: 6, k: 3, t: 1 });
    // these two, and the nine with t = 2 and at most six points
    Ok(opened && has_bound(&table, SIX, 6) && readers && open_cells(&table) == 11)
}

// Six blocks of three of six points, and each pair of points in one of them.
fn six_triples(alloc: Global) -> Result<Design, Memory> {
    let blocks = vec![in alloc;
        block(&[0, 1, 2]),
        block(&[0, 1, 3]),
        block(&[0, 4, 5]),
        block(&[1, 4, 5]),
        block(&[2, 3, 4]),
        block(&[2, 3, 5]),
    ]?;
    Ok(covering(SIX, blocks))
}

// Closes all cells, and accepts an upload; whether it was accepted, and all that read its cell are open.
fn opens_each_reader(
    alloc: Global,
    table: &mut Table,
    design: Design,
    c: Cell,
) -> Result<bool, Memory> {
    settle(alloc, table)?;
    let closed = table.at_rest();
    Ok(accept(alloc, table, design)? && closed && readers_are_open(table, c))
}

// Whether each cell that reads the cell is open.
fn readers_are_open(table: &Table, c: Cell) -> bool {
    let frame = table.frame();
    for place in 0..frame.size() {
        let reader = frame.cell(place);
        if reads_in(table, reader, c) && !is_open(table, reader) {
            return false;
        }
    }
    true
}

fn reads_in(table: &Table, reader: Cell, child: Cell) -> bool {
    let frame = table.frame();
    frame.has(reader) && frame.has(child) && reads(frame, reader, child)
}

// The number of open cells.
fn open_cells(table: &Table) -> u64 {
    let frame = table.frame();
    let mut open = 0;
    for place in 0..frame.size() {
        if is_open(table, frame.cell(place)) {
            open += 1;
        }
    }
    open
}
