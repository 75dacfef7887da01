use crate::calls::{accept, has_bound, has_bounds, settle, start};
use lj_base::{Cell, Memory};
use lj_cover::Design;
use lj_samples::{fano_plane, four_triples, fourteen_planes, three_fours};
use lj_table::Table;
use std::alloc::Global;

const TRIPLES: Cell = Cell { v: 7, k: 3, t: 2 };

// Settles the table; whether these are the bounds then.
fn settles_at(alloc: Global, table: &mut Table, bounds: [u64; 4]) -> Result<bool, Memory> {
    settle(alloc, table)?;
    Ok(table.at_rest() && has_bounds(table, bounds))
}

// Accepts an upload and settles; whether the first are the bounds between, and the second those at the end.
fn takes_in(
    alloc: Global,
    table: &mut Table,
    design: Design,
    at_once: [u64; 4],
    at_rest: [u64; 4],
) -> Result<bool, Memory> {
    let accepted = accept(alloc, table, design)?;
    let between = !table.at_rest() && has_bounds(table, at_once);
    Ok(accepted && between && settles_at(alloc, table, at_rest)?)
}

// Whether a table of the frame that has accepted the upload has these bounds at rest.
fn comes_to(
    alloc: Global,
    top: Cell,
    design: Design,
    bound: u64,
    other: Cell,
    other_bound: u64,
) -> Result<bool, Memory> {
    let mut table = start(alloc, top)?;
    let accepted = accept(alloc, &mut table, design)?;
    settle(alloc, &mut table)?;
    Ok(accepted && has_bound(&table, top, bound) && has_bound(&table, other, other_bound))
}

#[test]
fn a_frame_without_uploads_closes_at_its_least_bounds(rt: HostRuntime) -> Result<(), Memory> {
    assert!(rt; closes_without_uploads(rt.alloc())?);
    Ok(())
}

fn closes_without_uploads(alloc: Global) -> Result<bool, Memory> {
    let mut table = start(alloc, TRIPLES)?;
    let fresh = !table.at_rest() && has_bounds(&table, [6, 10, 15, 21]);
    Ok(fresh && settles_at(alloc, &mut table, [3, 4, 7, 9])?)
}

#[test]
fn the_four_triples_lower_a_bound_at_once(rt: HostRuntime) -> Result<(), Memory> {
    assert!(rt; takes_in_triples(rt.alloc())?);
    Ok(())
}

fn takes_in_triples(alloc: Global) -> Result<bool, Memory> {
    let design = four_triples(alloc)?;
    let mut table = start(alloc, TRIPLES)?;
    takes_in(alloc, &mut table, design, [6, 4, 15, 21], [3, 4, 7, 9])
}

#[test]
fn the_fano_plane_lowers_its_own_cell_after_rest(rt: HostRuntime) -> Result<(), Memory> {
    assert!(rt; takes_in_fano_plane(rt.alloc())?);
    Ok(())
}

fn takes_in_fano_plane(alloc: Global) -> Result<bool, Memory> {
    let design = fano_plane(alloc)?;
    let mut table = start(alloc, TRIPLES)?;
    settle(alloc, &mut table)?;
    takes_in(alloc, &mut table, design, [3, 4, 7, 7], [3, 4, 7, 7])
}

#[test]
fn the_fourteen_planes_give_the_fano_plane(rt: HostRuntime) -> Result<(), Memory> {
    assert!(rt; fourteen_planes_come_down(rt.alloc())?);
    Ok(())
}

fn fourteen_planes_come_down(alloc: Global) -> Result<bool, Memory> {
    let design = fourteen_planes(alloc)?;
    comes_to(alloc, Cell { v: 8, k: 4, t: 3 }, design, 14, TRIPLES, 7)
}

#[test]
fn cuts_of_three_fours_cover_five_points(rt: HostRuntime) -> Result<(), Memory> {
    assert!(rt; three_fours_are_cut(rt.alloc())?);
    Ok(())
}

fn three_fours_are_cut(alloc: Global) -> Result<bool, Memory> {
    let design = three_fours(alloc)?;
    let cut = Cell { v: 5, k: 3, t: 2 };
    comes_to(alloc, Cell { v: 6, k: 4, t: 2 }, design, 3, cut, 4)
}
