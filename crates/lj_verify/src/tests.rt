ghost use Rattle.std.specs.Prelude.{◌≤◌, ◌<◌, ◌^◌, length};

use crate::pairs::mark_sets;
use crate::pieces::mark_pieces;
use crate::ranges::mark_ranges;
use crate::workers::mark_shares;
use lj_base::{Block, MAX_BLOCKS, binom};
use std::alloc::Global;
use std::process::Abort;
use std::test::Fail;
use std::thread::Threads;

// A block of at most `k` points below `v`, which differs with `seed`.
fn block_of(v: u8, k: u8, seed: u64) -> Block
    requires { v < 99 }
{
    let mut block = Block::empty();
    let mut state = seed;
    for _ in 0..k {
        state = state
            .wrapping_mul(6364136223846793005)
            .wrapping_add(1442695040888963407);
        if block.len() < 25 && v > 0 {
            block.insert(((state >> 33) % v as u64) as u8);
        }
    }
    block
}

// Strings of each size mark what runs of pairs mark, in words from `start` on.
fn sizes_agree(
    rt: &impl Abort,
    alloc: Global,
    blocks: &[Block],
    t: u64,
    start: u64,
    len: usize,
) -> Result<(), Fail>
    requires { (t ≤ 8) × (start ≤ 2 ^ 24) × (len ≤ 2 ^ 24) }
{
    let mut expected = vec![in alloc; 0u64; len]?;
    mark_sets(&mut expected, start, blocks, t);
    for size in 0..9 {
        let mut found = vec![in alloc; 0u64; len]?;
        mark_pieces(&mut found, start, blocks, t, size);
        assert!(rt;
            found.as_slice() == expected.as_slice(),
            "t {t}, size {size}, start {start}"
        );
    }
    Ok(())
}

#[test]
fn strings_mark_what_runs_mark_in_small_cells(rt: HostRuntime) -> Result<(), Fail> {
    let alloc = rt.alloc();
    for v in 1..10 {
        for k in 1..6 {
            let mut blocks = Vec::new(alloc);
            for seed in 0..6 {
                blocks.push(block_of(v, k, seed))?;
            }
            for t in 0..4 {
                sizes_agree(&rt, alloc, &blocks, t, 0, 3)?;
                sizes_agree(&rt, alloc, &blocks, t, 1, 2)?;
            }
        }
    }
    Ok(())
}

#[test]
fn ranges_begin_and_end_inside_a_string(rt: HostRuntime) -> Result<(), Fail> {
    let alloc = rt.alloc();
    let mut blocks = Vec::new(alloc);
    for seed in 0..3 {
        blocks.push(block_of(42, 60, seed))?;
    }
    for start in [0, 1, 3, 130, 9_000, 300_000, 1_800_000] {
        sizes_agree(&rt, alloc, &blocks, 8, start, 70_001)?;
        sizes_agree(&rt, alloc, &blocks, 8, start, 5)?;
        sizes_agree(&rt, alloc, &blocks, 5, start, 700)?;
    }
    assert_eq!(rt; binom(42, 8), 118_030_185);
    Ok(())
}

// Several workers mark what runs of pairs mark, each a share of the blocks or a range of the ranks.
fn workers_agree<R: Threads + Abort + Sync>(
    rt: &R,
    alloc: Global,
    blocks: &[Block],
    t: u64,
    size: u64,
    len: usize,
) -> Result<(), Fail>
    requires { (t ≤ 8) × (length blocks.now ≤ MAX_BLOCKS) × (len ≤ 2 ^ 24) }
{
    let mut expected = vec![in alloc; 0u64; len]?;
    mark_sets(&mut expected, 0, blocks, t);
    for workers in [1, 2, 3, 64] {
        let mut by_share = vec![in alloc; 0u64; len]?;
        mark_shares(rt, alloc, &mut by_share, blocks, t, size, workers)?;
        let mut by_range = vec![in alloc; 0u64; len]?;
        mark_ranges(rt, blocks, t, size, workers, 0, &mut by_range);
        assert!(rt;
            by_share.as_slice() == expected.as_slice(),
            "{workers} shares, t {t}"
        );
        assert!(rt;
            by_range.as_slice() == expected.as_slice(),
            "{workers} ranges, t {t}"
        );
    }
    Ok(())
}

#[test]
fn workers_mark_what_one_marks(rt: HostRuntime) -> Result<(), Fail> {
    let alloc = rt.alloc();
    let blocks = [0, 1, 2, 3, 4].map(|seed| block_of(42, 60, seed));
    for (t, size, len) in [
        (0, 0, 1),
        (1, 0, 1),
        (2, 0, 14),
        (3, 1, 180),
        (5, 3, 13_292),
        (8, 4, 70_001),
    ] {
        workers_agree(&rt, alloc, &blocks, t, size, len)?;
        workers_agree(&rt, alloc, &blocks[..0], t, size, len)?;
    }
    Ok(())
}
