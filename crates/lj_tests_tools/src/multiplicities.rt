ghost use Rattle.std.specs.Prelude.{◌≤◌};

use crate::given::{counts_of, design_of, lines_of};
use crate::plain::{greedy, multiplicity, sets};
use lj_base::Cell;
use lj_cover::Design;
use lj_excess::{CountFail, Counts};
use lj_samples::{fano_plane, four_triples};
use std::alloc::Global;
use std::process::Abort;
use std::test::Fail;

// The sets that are covered once, the most blocks of one set, and the excess.
fn sums(alloc: Global, design: &Design) -> Result<(u64, u32, u64), Fail> {
    let counts = counts_of(alloc, design)?;
    Ok((counts.once(), counts.most(), counts.excess()))
}

#[test]
fn known_coverings_have_their_excess(rt: HostRuntime) -> Result<(), Fail> {
    let alloc = rt.alloc();
    assert_eq!(rt; sums(alloc, &four_triples(alloc)?)?, (9, 3, 2));
    assert_eq!(rt; sums(alloc, &fano_plane(alloc)?)?, (21, 1, 0));
    Ok(())
}

// A block that stands twice is counted twice.
#[test]
fn equal_blocks_are_counted_each(rt: HostRuntime) -> Result<(), Fail> {
    let alloc = rt.alloc();
    let cell = Cell { v: 3, k: 2, t: 1 };
    let design = design_of(alloc, cell, b"1 2\n1 2\n2 3\n")?;
    assert_eq!(rt; sums(alloc, &design)?, (1, 3, 3));
    Ok(())
}

#[test]
fn the_sets_that_are_counted_are_limited(rt: HostRuntime) -> Result<(), Fail> {
    let alloc = rt.alloc();
    let rows = [
        (Cell { v: 99, k: 6, t: 6 }, 1_120_529_256),
        (Cell { v: 51, k: 6, t: 6 }, 18_009_460),
        (Cell { v: 75, k: 5, t: 5 }, 17_259_390),
    ];
    for (cell, n) in rows {
        let fail = Counts::none(alloc, cell).err();
        assert_eq!(rt; fail, Some(CountFail::TSets { n }));
    }
    let fail = Counts::none(alloc, Cell { v: 50, k: 6, t: 6 }).err();
    assert_eq!(rt; fail, None);
    Ok(())
}

// Each count is the multiplicity that a plain program finds.
fn counts_agree(rt: &impl Abort, alloc: Global, cell: Cell, masks: &[u64]) -> Result<(), Fail>
    requires { 1 ≤ cell.k }
{
    let design = design_of(alloc, cell, &lines_of(alloc, masks)?)?;
    let counts = counts_of(alloc, &design)?;
    let mut r = 0;
    for set in sets(alloc, cell.v as u64, cell.t as u64)? {
        if r < counts.sets() {
            assert_eq!(rt; u64::from(counts.at(r)), multiplicity(masks, set));
            r += 1;
        }
    }
    assert_eq!(rt; r, counts.sets());
    Ok(())
}

// Those of the cell, where the numbers are one, for two lists that cover it.
fn cell_agrees(rt: &impl Abort, alloc: Global, v: u64, k: u64, t: u64) -> Result<(), Fail> {
    let Some(cell) = Cell::with_blocks(v, k, t) else {
        return Ok(());
    };
    counts_agree(rt, alloc, cell, &greedy(alloc, v, k, t)?)?;
    counts_agree(rt, alloc, cell, &sets(alloc, v, k)?)
}

#[test]
fn counts_of_small_cells_are_the_plain_ones(rt: HostRuntime) -> Result<(), Fail> {
    let alloc = rt.alloc();
    for v in 1..9 {
        for k in 1..5 {
            for t in 0..4 {
                cell_agrees(&rt, alloc, v, k, t)?;
            }
        }
    }
    Ok(())
}
