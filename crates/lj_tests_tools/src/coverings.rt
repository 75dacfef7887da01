ghost use Rattle.std.specs.Prelude.{◌≤◌};

use crate::given::{design_of, lines_of, lines_of_design};
use crate::plain;
use lj_base::Cell;
use lj_cover::Design;
use lj_greedy::{GreedyFail, greedy, reduce};
use std::alloc::Global;
use std::process::Abort;
use std::test::Fail;

// The lines of the greedy covering.
fn greedy_lines(alloc: Global, cell: Cell) -> Result<Vec<u8>, Fail>
    requires { 1 ≤ cell.k }
{
    match greedy(alloc, cell) {
        Ok(design) => lines_of_design(alloc, &design),
        Err(_) => Err("no greedy covering".into()),
    }
}

// The lines of what remains of a design.
fn reduced_lines(alloc: Global, design: Design) -> Result<Vec<u8>, Fail> {
    if design.blocks().len() >= 1 << 32 {
        return Err("too many blocks".into());
    }
    match reduce(alloc, design) {
        Ok(design) => lines_of_design(alloc, &design),
        Err(_) => Err("not reduced".into()),
    }
}

#[test]
fn greedy_coverings_by_hand(rt: HostRuntime) -> Result<(), Fail> {
    let alloc = rt.alloc();
    let rows: [(Cell, &[u8]); 4] = [
        (Cell { v: 5, k: 3, t: 2 }, b"1 2 3\n1 4 5\n2 3 4\n2 3 5\n"),
        (
            Cell { v: 7, k: 3, t: 2 },
            b"1 2 3\n1 4 5\n2 4 6\n3 4 7\n2 5 7\n3 5 6\n1 6 7\n",
        ),
        (Cell { v: 5, k: 3, t: 0 }, b"1 2 3\n"),
        (Cell { v: 5, k: 2, t: 1 }, b"1 2\n3 4\n1 5\n"),
    ];
    for (cell, lines) in rows {
        assert!(rt; greedy_lines(alloc, cell)?.as_slice() == lines);
    }
    Ok(())
}

#[test]
fn the_sets_of_a_greedy_covering_are_limited(rt: HostRuntime) -> Result<(), Fail> {
    let alloc = rt.alloc();
    for (cell, n) in [
        (Cell { v: 99, k: 4, t: 3 }, 156_849),
        (Cell { v: 86, k: 4, t: 3 }, 102_340),
    ] {
        let fail = greedy(alloc, cell).err();
        assert_eq!(rt; fail, Some(GreedyFail::TSets { n }));
    }
    Ok(())
}

#[test]
fn a_spare_block_is_left_out(rt: HostRuntime) -> Result<(), Fail> {
    let alloc = rt.alloc();
    let cell = Cell { v: 4, k: 2, t: 1 };
    let design = design_of(alloc, cell, b"1 2\n2 3\n3 4\n")?;
    assert!(rt; reduced_lines(alloc, design)?.as_slice() == b"1 2\n3 4\n".as_slice());
    // Of equal blocks the first remains.
    let design = design_of(alloc, cell, b"1 2\n3 4\n1 2\n3 4\n2 3\n")?;
    assert!(rt; reduced_lines(alloc, design)?.as_slice() == b"1 2\n3 4\n".as_slice());
    Ok(())
}

// The greedy covering is that of the plain program.
fn greedy_agrees(rt: &impl Abort, alloc: Global, cell: Cell) -> Result<(), Fail>
    requires { 1 ≤ cell.k }
{
    let (v, k, t) = (cell.v as u64, cell.k as u64, cell.t as u64);
    let all = plain::sets(alloc, v, t)?;
    let list = plain::greedy(alloc, v, k, t)?;
    let expected = lines_of(alloc, &plain::reduced(alloc, &list, &all)?)?;
    let found = greedy_lines(alloc, cell)?;
    assert!(rt;
        found.as_slice() == expected.as_slice(),
        "greedy {v} {k} {t}"
    );
    Ok(())
}

// What remains of all blocks is what remains for the plain program.
fn reduce_agrees(rt: &impl Abort, alloc: Global, cell: Cell) -> Result<(), Fail>
    requires { 1 ≤ cell.k }
{
    let (v, k, t) = (cell.v as u64, cell.k as u64, cell.t as u64);
    let all = plain::sets(alloc, v, t)?;
    let blocks = plain::sets(alloc, v, k)?;
    let expected = lines_of(alloc, &plain::reduced(alloc, &blocks, &all)?)?;
    let design = design_of(alloc, cell, &lines_of(alloc, &blocks)?)?;
    let found = reduced_lines(alloc, design)?;
    assert!(rt;
        found.as_slice() == expected.as_slice(),
        "reduce {v} {k} {t}"
    );
    Ok(())
}

// Both, where the numbers are a cell.
fn cell_agrees(rt: &impl Abort, alloc: Global, v: u64, k: u64, t: u64) -> Result<(), Fail> {
    let Some(cell) = Cell::with_blocks(v, k, t) else {
        return Ok(());
    };
    greedy_agrees(rt, alloc, cell)?;
    reduce_agrees(rt, alloc, cell)
}

#[test]
fn coverings_of_small_cells_are_the_plain_ones(rt: HostRuntime) -> Result<(), Fail> {
    let alloc = rt.alloc();
    for v in 1..9 {
        for k in 1..5 {
            for t in 0..4 {
                cell_agrees(&rt, alloc, v, k, t)?;
            }
        }
    }
    Ok(())
}
