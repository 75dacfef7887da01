ghost use Rattle.std.specs.Prelude.{◌≡◌, ◌≤◌, ◌<◌, [], ◌∷◌, IfOk};
ghost use Rattle.lj_base.specs.Blocks.{AreBlocks};

use lj_base::{Block, Cell};
use lj_blockfile::{read_blocks, write_block};
use lj_cover::Design;
use lj_rank::TSet;
use lj_samples::{block, block_of, fano_plane, four_triples, fourteen_planes};
use lj_verify::{Refusal, check, check_plain};
use std::alloc::Global;
use std::process::Abort;
use std::test::Fail;
use std::thread::Threads;

// The blocks of the lines.
fn read(alloc: Global, cell: Cell, lines: &[u8]) -> Result<Vec<Block>, Fail>
    requires { 1 ≤ cell.k }
    ensures { IfOk result (λ blocks. AreBlocks cell.v cell.k blocks.items) }
{
    match read_blocks(alloc, lines, cell.v as u64, cell.k as u64) {
        Ok(blocks) => Ok(blocks),
        Err(_) => Err("no blocks".into()),
    }
}

// The result of the plain check, which the other has with each number of workers.
fn both<R: Threads + Abort + Sync>(
    rt: &R,
    alloc: Global,
    cell: Cell,
    blocks: &[Block],
) -> Result<Option<Refusal>, Fail>
    requires { AreBlocks cell.v cell.k blocks.now }
{
    let expected = check_plain(alloc, cell, blocks.to_vec(alloc)?).err();
    for workers in [1, 2, 3, 64] {
        let refusal = check(rt, alloc, cell, blocks.to_vec(alloc)?, workers).err();
        assert_eq!(rt; refusal, expected, "with {workers} workers");
    }
    Ok(expected)
}

// The result of both checks of the blocks that the lines spell.
fn both_of<R: Threads + Abort + Sync>(
    rt: &R,
    alloc: Global,
    cell: Cell,
    lines: &[u8],
) -> Result<Option<Refusal>, Fail>
    requires { 1 ≤ cell.k }
{
    let blocks = read(alloc, cell, lines)?;
    both(rt, alloc, cell, &blocks)
}

// The set of these points, of those below 99 that ascend.
fn set_of(points: &[u8]) -> TSet {
    let mut set = TSet::empty();
    for p in points {
        push(&mut set, *p);
    }
    set
}

// Adds a point that is above all others.
fn push(set: &mut TSet, p: u8) {
    let len = set.len();
    if p < 99 && len < 8 && (len == 0 || set.at(len - 1) < p) {
        set.push(p);
    }
}

// What both checks say of a covering.
fn again<R: Threads + Abort + Sync>(
    rt: &R,
    alloc: Global,
    design: &Design,
) -> Result<Option<Refusal>, Fail> {
    both(rt, alloc, design.cell(), design.blocks())
}

#[test]
fn known_coverings_are_accepted(rt: HostRuntime) -> Result<(), Fail> {
    let alloc = rt.alloc();
    assert_eq!(rt; again(&rt, alloc, &four_triples(alloc)?)?, None);
    assert_eq!(rt; again(&rt, alloc, &fano_plane(alloc)?)?, None);
    assert_eq!(rt; again(&rt, alloc, &fourteen_planes(alloc)?)?, None);
    Ok(())
}

#[test]
fn the_first_uncovered_set_is_named(rt: HostRuntime) -> Result<(), Fail> {
    let alloc = rt.alloc();
    let cell = Cell { v: 5, k: 3, t: 2 };
    let set = set_of(&[2, 3]);
    assert_eq!(rt;
        both_of(&rt, alloc, cell, b"1 2 3\n1 4 5\n2 4 5\n")?,
        Some(Refusal::Uncovered { set })
    );
    Ok(())
}

// The lines of all blocks but one.
fn lines_without(alloc: Global, blocks: &[Block], left_out: usize) -> Result<Vec<u8>, Fail> {
    let mut lines = Vec::new(alloc);
    for (i, block) in blocks.iter().enumerate() {
        if i != left_out {
            write_block(block, &mut lines)?;
        }
    }
    Ok(lines)
}

#[test]
fn of_the_fourteen_planes_none_can_be_left_out(rt: HostRuntime) -> Result<(), Fail> {
    let alloc = rt.alloc();
    let planes = fourteen_planes(alloc)?;
    let cell = Cell { v: 8, k: 4, t: 3 };
    for left_out in 0..14 {
        let lines = lines_without(alloc, planes.blocks(), left_out)?;
        assert!(rt;
            both_of(&rt, alloc, cell, &lines)?.is_some(),
            "without {left_out}"
        );
    }
    Ok(())
}

// The line, n times.
fn copies(alloc: Global, line: &[u8], n: u64) -> Result<Vec<u8>, Fail> {
    let mut lines = Vec::new(alloc);
    for _ in 0..n {
        lines.extend_from_slice(line)?;
    }
    Ok(lines)
}

// A block of k points below v, by a linear congruence.
fn next_block(state: &mut u64, v: u64, k: u64) -> Block
    requires { 1 ≤ v }
{
    let mut block = block_of(&[]);
    for _ in 0..2000 {
        *state = state
            .wrapping_mul(6364136223846793005)
            .wrapping_add(1442695040888963407);
        let point = (*state >> 33) % v;
        if block.len() < k && block.len() < 25 && point < 99 {
            block.insert(point as u8);
        }
    }
    block
}

// Both checks of this many generated blocks.
fn both_of_generated<R: Threads + Abort + Sync>(
    rt: &R,
    alloc: Global,
    cell: Cell,
    n: u64,
    state: &mut u64,
) -> Result<(), Fail>
    requires { 1 ≤ cell.k }
{
    let mut lines = Vec::new(alloc);
    for _ in 0..n {
        write_block(&next_block(state, cell.v as u64, cell.k as u64), &mut lines)?;
    }
    let blocks = read(alloc, cell, &lines)?;
    assert_eq!(rt;
        blocks.len() as u64,
        n,
        "of {} {} {}",
        cell.v,
        cell.k,
        cell.t
    );
    both(rt, alloc, cell, &blocks)?;
    Ok(())
}

#[test]
fn both_checks_say_the_same_of_generated_blocks(rt: HostRuntime) -> Result<(), Fail> {
    let alloc = rt.alloc();
    let mut state = 1;
    for (v, k, t) in [
        (6, 3, 0),
        (6, 3, 1),
        (99, 25, 1),
        (9, 4, 2),
        (99, 25, 2),
        (9, 5, 5),
        (8, 8, 3),
        (75, 20, 3),
        (10, 8, 4),
        (14, 12, 8),
    ] {
        let cell = Cell::new(v, k, t).expect(&rt, "a cell");
        for n in [0, 1, 5, 40] {
            both_of_generated(&rt, alloc, cell, n, &mut state)?;
        }
    }
    Ok(())
}

#[test]
fn both_checks_say_the_same_in_all_small_cells(rt: HostRuntime) -> Result<(), Fail> {
    let alloc = rt.alloc();
    let mut state = 2;
    for v in 1..10 {
        for k in 1..6 {
            for t in 0..4 {
                if let Ok(cell) = Cell::new(v, k, t) {
                    both_of_generated(&rt, alloc, cell, 7, &mut state)?;
                }
            }
        }
    }
    Ok(())
}

#[test]
fn blocks_of_no_point_cover_the_set_of_none(rt: HostRuntime) -> Result<(), Fail> {
    let alloc = rt.alloc();
    let cell = Cell { v: 6, k: 0, t: 0 };
    let none = both(&rt, alloc, cell, &[])?;
    assert_eq!(rt; none, Some(Refusal::Uncovered { set: TSet::empty() }));
    let one = vec![in alloc; Block::empty()]?;
    assert_eq!(rt; both(&rt, alloc, cell, &one)?, None);
    Ok(())
}

#[test]
fn a_hundred_thousand_blocks_are_checked(rt: HostRuntime) -> Result<(), Fail> {
    let alloc = rt.alloc();
    let cell = Cell { v: 3, k: 1, t: 1 };
    let mut lines = copies(alloc, b"1\n", 99_998)?;
    lines.extend_from_slice(b"2\n3\n")?;
    assert_eq!(rt; both_of(&rt, alloc, cell, &lines)?, None);
    Ok(())
}

// Appends the block of the first of three points.
fn add_single(blocks: &mut Vec<Block>) -> Result<(), Fail>
    requires { AreBlocks 3 1 blocks.old.items }
    ensures { AreBlocks 3 1 blocks.new.items }
{
    blocks.push(block(&[0]))?;
    Ok(())
}

#[test]
fn the_blocks_are_limited(rt: HostRuntime) -> Result<(), Fail> {
    let alloc = rt.alloc();
    let cell = Cell { v: 3, k: 1, t: 1 };
    let mut blocks = read(alloc, cell, &copies(alloc, b"1\n", 100_000)?)?;
    add_single(&mut blocks)?;
    let refusal = both(&rt, alloc, cell, &blocks)?;
    assert_eq!(rt; refusal, Some(Refusal::Blocks { n: 100_001 }));
    Ok(())
}

#[test]
fn the_sets_are_limited(rt: HostRuntime) -> Result<(), Fail> {
    let alloc = rt.alloc();
    let line = b"1 2 3 4 5 6 7 8\n";
    let rows = [
        (Cell { v: 99, k: 8, t: 8 }, 171_200_862_756),
        (Cell { v: 71, k: 8, t: 6 }, 143_218_999),
    ];
    for (cell, n) in rows {
        let refusal = check_plain(alloc, cell, read(alloc, cell, line)?).err();
        assert_eq!(rt; refusal, Some(Refusal::TSets { n }));
        let refusal = check(&rt, alloc, cell, read(alloc, cell, line)?, 4).err();
        assert_eq!(rt; refusal, Some(Refusal::TSets { n }));
    }
    // Of all numbers of sets the greatest within the limit.
    let cell = Cell { v: 52, k: 8, t: 7 };
    let refusal = check(&rt, alloc, cell, read(alloc, cell, line)?, 2).err();
    let set = set_of(&[0, 1, 2, 3, 4, 5, 8]);
    assert_eq!(rt; refusal, Some(Refusal::Uncovered { set }));
    Ok(())
}

const TWENTY_FIVE: &[u8] = b"1 2 3 4 5 6 7 8 9 10 11 12 13 14 15 16 17 18 19 20 21 22 23 24 25\n";

#[test]
fn the_marks_are_limited(rt: HostRuntime) -> Result<(), Fail> {
    let alloc = rt.alloc();
    let lines = copies(alloc, TWENTY_FIVE, 40_420)?;
    assert_eq!(rt;
        both_of(&rt, alloc, Cell { v: 30, k: 25, t: 5 }, &lines)?,
        Some(Refusal::Marks { n: 2_147_514_600 })
    );
    // Too many sets as well, which come first.
    let lines = copies(alloc, TWENTY_FIVE, 2_000)?;
    assert_eq!(rt;
        both_of(&rt, alloc, Cell { v: 99, k: 25, t: 8 }, &lines)?,
        Some(Refusal::TSets { n: 171_200_862_756 })
    );
    Ok(())
}

// Almost as many marks as there may be, where each set has few points for its block.
#[test]
fn the_most_marks_are_made(rt: HostRuntime) -> Result<(), Fail> {
    let alloc = rt.alloc();
    let cell = Cell { v: 25, k: 25, t: 5 };
    let lines = copies(alloc, TWENTY_FIVE, 40_419)?;
    let refusal = check(&rt, alloc, cell, read(alloc, cell, &lines)?, 4).err();
    assert_eq!(rt; refusal, None);
    let cell = Cell { v: 18, k: 18, t: 7 };
    let lines = copies(
        alloc,
        b"1 2 3 4 5 6 7 8 9 10 11 12 13 14 15 16 17 18\n",
        67_481,
    )?;
    assert_eq!(rt;
        both_of(&rt, alloc, cell, &lines)?,
        Some(Refusal::Marks { n: 2_147_515_344 })
    );
    Ok(())
}

// The sets of the first 25 points come first, and then those of the point 26 and seven of the first 24. The blocks have
// so many sets that several workers are worth their threads: three have maps of their own, and 64 take ranges.
#[test]
fn blocks_of_two_kinds_leave_a_set_of_a_large_cell_uncovered(rt: HostRuntime) -> Result<(), Fail> {
    let alloc = rt.alloc();
    let cell = Cell { v: 42, k: 25, t: 8 };
    let mut lines = copies(alloc, TWENTY_FIVE, 4)?;
    lines.extend_from_slice(
        b"1 2 3 4 5 6 7 8 9 10 11 12 13 14 15 16 17 18 19 20 21 22 23 24 26\n",
    )?;
    for workers in [1, 2, 3, 64] {
        let refusal = check(&rt, alloc, cell, read(alloc, cell, &lines)?, workers).err();
        let set = set_of(&[0, 1, 2, 3, 4, 5, 24, 25]);
        assert_eq!(rt;
            refusal,
            Some(Refusal::Uncovered { set }),
            "with {workers} workers"
        );
    }
    Ok(())
}

const THREE_BLOCKS: &[u8] = b"1 2 3 4 5 6 7 8 9 10 11 12 15 16 17 18 19 20 21 22 23 24 25 26 27
1 2 3 4 5 6 7 8 9 10 13 14 28 29 30 31 32 33 34 35 36 37 38 39 40
1 2 3 4 5 6 9 10 11 12 13 14 16 18 20 22 24 26 28 30 32 34 36 41 42
";

const FIVE_BLOCKS: &[u8] = b"1 2 4 5 6 8 9 10 11 12 13 14 15 16 17 18 19 20 21 22 23 24 25 30 41
1 2 4 5 6 7 8 10 11 13 14 15 16 17 18 19 20 21 22 23 24 25 28 33 36
2 3 4 5 6 7 8 9 10 11 12 13 14 15 16 17 18 19 20 21 22 23 24 25 26
1 2 3 4 5 6 7 8 9 10 11 12 13 14 15 16 17 30 31 32 33 34 35 36 37
1 2 3 4 5 6 7 8 9 11 13 15 17 19 21 23 25 27 29 31 33 35 37 39 41
";

// The plain check ends at sets of few points, before most of the 118,030,185 sets.
#[test]
fn both_checks_name_the_same_set_of_a_large_cell(rt: HostRuntime) -> Result<(), Fail> {
    let alloc = rt.alloc();
    let cell = Cell { v: 42, k: 25, t: 8 };
    for (lines, points) in [
        (THREE_BLOCKS, [0, 1, 2, 3, 4, 6, 10, 12]),
        (FIVE_BLOCKS, [0, 1, 2, 3, 4, 5, 6, 17]),
    ] {
        let set = set_of(&points);
        assert!(rt; both_of(&rt, alloc, cell, lines)? == Some(Refusal::Uncovered { set }));
    }
    Ok(())
}
