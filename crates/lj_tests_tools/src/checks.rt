ghost use Rattle.std.specs.Prelude.{◌≡◌, ◌≤◌, IfOk};
ghost use Rattle.lj_base.specs.Blocks.{AreBlocks};
ghost use Rattle.lj_base.specs.Colex.{choose};
ghost use Rattle.lj_excess.specs.declared.limits.TheConstants.{MAX_COUNTS};

use crate::given::{lines_of, lines_of_design, read};
use crate::plain::{greedy, sets};
use lj_base::{Block, Cell, MAX_MARKS, binom};
use lj_excess::{Counted, Counts, MAX_COUNTS, check_counted};
use lj_greedy::reduce_counted;
use lj_rank::TSet;
use lj_verify::{Refusal, check_plain};
use std::alloc::Global;
use std::process::Abort;
use std::test::Fail;

// Whether the sets of the cell are few enough for counts.
fn has_few_sets(cell: Cell) -> Result<(), Fail>
    ensures { IfOk result (λ _. choose cell.v cell.t ≤ MAX_COUNTS) }
{
    if binom(cell.v as u64, cell.t as u64) > MAX_COUNTS {
        return Err("too many sets".into());
    }
    Ok(())
}

// The check by counts of the blocks.
fn checked(alloc: Global, cell: Cell, blocks: &[Block]) -> Result<Result<Counted, Refusal>, Fail>
    requires { AreBlocks cell.v cell.k blocks.now }
{
    has_few_sets(cell)?;
    Ok(check_counted(alloc, cell, blocks.to_vec(alloc)?))
}

// The set of these points, of those below 99 that ascend.
fn set_of(points: &[u8]) -> TSet {
    let mut set = TSet::empty();
    for p in points {
        push(&mut set, *p);
    }
    set
}

// Adds a point that is above all others.
fn push(set: &mut TSet, p: u8) {
    let len = set.len();
    if p < 99 && len < 8 && (len == 0 || set.at(len - 1) < p) {
        set.push(p);
    }
}

// What the check by counts refuses the lines' blocks for, if anything.
fn refusal_of(alloc: Global, cell: Cell, lines: &[u8]) -> Result<Option<Refusal>, Fail>
    requires { 1 ≤ cell.k }
{
    let blocks = read(alloc, cell, lines)?;
    Ok(checked(alloc, cell, &blocks)?.err())
}

#[test]
fn the_first_uncovered_set_is_named(rt: HostRuntime) -> Result<(), Fail> {
    let alloc = rt.alloc();
    let cell = Cell { v: 5, k: 3, t: 2 };
    let set = set_of(&[2, 3]);
    assert_eq!(rt;
        refusal_of(alloc, cell, b"1 2 3\n1 4 5\n2 4 5\n")?,
        Some(Refusal::Uncovered { set })
    );
    Ok(())
}

// Blocks of all sets of 8 among 25 points, 1081575 each: 1985 of them have at most 2^31 sets together, 1986 have more.
#[test]
fn the_sets_in_all_blocks_are_limited(rt: HostRuntime) -> Result<(), Fail> {
    let alloc = rt.alloc();
    let cell = Cell { v: 25, k: 25, t: 8 };
    let line = b"1 2 3 4 5 6 7 8 9 10 11 12 13 14 15 16 17 18 19 20 21 22 23 24 25\n";
    let mut lines = Vec::new(alloc);
    for _ in 0..1986 {
        lines.extend_from_slice(line)?;
    }
    let n = 1986 * 1_081_575;
    assert!(rt; n > MAX_MARKS);
    assert_eq!(rt;
        refusal_of(alloc, cell, &lines)?,
        Some(Refusal::Marks { n })
    );
    Ok(())
}

// The sums of the counts, and the lines of what remains, of lines that cover.
fn reduced_sums(alloc: Global, cell: Cell, lines: &[u8]) -> Result<(u64, u32, u64, Vec<u8>), Fail>
    requires { 1 ≤ cell.k }
{
    let blocks = read(alloc, cell, lines)?;
    if blocks.len() >= 1 << 32 {
        return Err("too many blocks".into());
    }
    has_few_sets(cell)?;
    let Ok(Counted { design, counts }) = check_counted(alloc, cell, blocks) else {
        return Err("no covering".into());
    };
    let (once, most, excess) = sums(&counts);
    let Ok(design) = reduce_counted(alloc, design, counts) else {
        return Err("not reduced".into());
    };
    Ok((once, most, excess, lines_of_design(alloc, &design)?))
}

// The sets that are covered once, the most blocks of one set, and the excess.
fn sums(counts: &Counts) -> (u64, u32, u64) {
    (counts.once(), counts.most(), counts.excess())
}

#[test]
fn the_counts_of_a_check_serve_for_its_sums_and_spare_blocks(rt: HostRuntime) -> Result<(), Fail> {
    let alloc = rt.alloc();
    let cell = Cell { v: 3, k: 2, t: 1 };
    let (once, most, excess, rest) = reduced_sums(alloc, cell, b"1 2\n1 2\n2 3\n")?;
    assert_eq!(rt; (once, most, excess), (1, 3, 3));
    assert!(rt; rest.as_slice() == b"1 2\n2 3\n".as_slice());
    Ok(())
}

// The check by counts says of these blocks what the plain one says.
fn checks_agree(rt: &impl Abort, alloc: Global, cell: Cell, masks: &[u64]) -> Result<(), Fail>
    requires { 1 ≤ cell.k }
{
    let blocks = read(alloc, cell, &lines_of(alloc, masks)?)?;
    let found = checked(alloc, cell, &blocks)?.err();
    let expected = check_plain(alloc, cell, blocks).err();
    assert_eq!(rt; found, expected);
    Ok(())
}

// Coverings of the cell, where the numbers are one, and the first blocks of one of them.
fn cell_agrees(rt: &impl Abort, alloc: Global, v: u64, k: u64, t: u64) -> Result<(), Fail> {
    let Some(cell) = Cell::with_blocks(v, k, t) else {
        return Ok(());
    };
    checks_agree(rt, alloc, cell, &sets(alloc, v, k)?)?;
    let masks = greedy(alloc, v, k, t)?;
    checks_agree(rt, alloc, cell, &masks)?;
    for n in 0..masks.len() {
        checks_agree(rt, alloc, cell, &masks[..n])?;
    }
    Ok(())
}

#[test]
fn the_check_by_counts_is_the_plain_one_in_small_cells(rt: HostRuntime) -> Result<(), Fail> {
    let alloc = rt.alloc();
    for v in 1..9 {
        for k in 1..5 {
            for t in 0..4 {
                cell_agrees(&rt, alloc, v, k, t)?;
            }
        }
    }
    Ok(())
}
