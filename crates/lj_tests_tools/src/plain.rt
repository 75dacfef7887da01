//! Plain programs, by the definitions: sets and blocks are masks of points below 16, and all sets are looked at anew.

use std::alloc::{AllocError, Global};

/// The sets of `k` points below `v`, by their greatest points: as numbers they ascend.
pub fn sets(alloc: Global, v: u64, k: u64) -> Result<Vec<u64>, AllocError> {
    let mut all = Vec::new(alloc);
    for mask in 0..1u64 << v.min(16) {
        if u64::from(mask.count_ones()) == k {
            all.push(mask)?;
        }
    }
    Ok(all)
}

/// How many of the blocks contain the set.
pub fn multiplicity(blocks: &[u64], set: u64) -> u64 {
    let mut count = 0u64;
    for block in blocks {
        if set & !*block == 0 {
            count = count.saturating_add(1);
        }
    }
    count
}

pub fn covers(blocks: &[u64], all: &[u64]) -> bool {
    for set in all {
        if multiplicity(blocks, *set) == 0 {
            return false;
        }
    }
    true
}

/// How many sets that no block contains are within the mask and the point, and hold the point.
fn gain(blocks: &[u64], all: &[u64], mask: u64, point: u64) -> u64 {
    let mut count = 0u64;
    for set in all {
        let within = *set & !(mask | point) == 0;
        if within && *set & point != 0 && multiplicity(blocks, *set) == 0 {
            count = count.saturating_add(1);
        }
    }
    count
}

/// The mask with the best point below `v` that it lacks: the least of those of the greatest gain.
fn with_best(blocks: &[u64], all: &[u64], v: u64, mask: u64) -> u64 {
    let mut best = 0;
    let mut most = None;
    for p in 0..v.min(16) {
        let point = 1u64 << p;
        if mask & point == 0 {
            let gained = gain(blocks, all, mask, point);
            if most.is_none() || most < Some(gained) {
                best = point;
                most = Some(gained);
            }
        }
    }
    mask | best
}

/// The greedy list.
pub fn greedy(alloc: Global, v: u64, k: u64, t: u64) -> Result<Vec<u64>, AllocError> {
    let all = sets(alloc, v, t)?;
    let mut blocks = Vec::new(alloc);
    for set in &all {
        if multiplicity(&blocks, *set) == 0 {
            let mut mask = *set;
            for _ in t..k {
                mask = with_best(&blocks, &all, v, mask);
            }
            blocks.push(mask)?;
        }
    }
    Ok(blocks)
}

/// The blocks but those at the places that are left out.
fn remaining(alloc: Global, blocks: &[u64], left_out: &[bool]) -> Result<Vec<u64>, AllocError> {
    let mut others = Vec::new(alloc);
    for (block, out) in blocks.iter().zip(left_out) {
        if !*out {
            others.push(*block)?;
        }
    }
    Ok(others)
}

/// What remains where the places are gone through from the last to the first, and a block is left out whenever the
/// others that remain cover.
pub fn reduced(alloc: Global, blocks: &[u64], all: &[u64]) -> Result<Vec<u64>, AllocError> {
    let mut left_out = vec![in alloc; false; blocks.len()]?;
    for i in (0..left_out.len()).rev() {
        left_out[i] = true;
        if !covers(&remaining(alloc, blocks, &left_out)?, all) {
            left_out[i] = false;
        }
    }
    remaining(alloc, blocks, &left_out)
}
