//! The rules over plain lists of points, written from their tables: slow, and with no proof of what they give.

use std::alloc::{AllocError, Global};

pub type Blocks = Vec<Vec<u8>>;

// The block with its least missing points added until it has k.
fn filled(alloc: Global, b: &[u8], k: usize) -> Result<Vec<u8>, AllocError> {
    let mut points = b.to_vec(alloc)?;
    for p in 0..99u8 {
        if points.len() < k && !points.contains(&p) {
            points.push(p)?;
        }
    }
    points.sort()?;
    Ok(points)
}

pub fn one(alloc: Global, k: u8) -> Result<Blocks, AllocError> {
    let mut points = Vec::new(alloc);
    for p in 0..k {
        points.push(p)?;
    }
    let mut blocks = Vec::new(alloc);
    blocks.push(points)?;
    Ok(blocks)
}

pub fn runs(alloc: Global, v: u8, k: u8) -> Result<Blocks, AllocError> {
    let mut blocks = Vec::new(alloc);
    for start in 0..v {
        if k > 0 && start % k == 0 {
            let mut points = Vec::new(alloc);
            for p in start..v.min(start.saturating_add(k)) {
                points.push(p)?;
            }
            blocks.push(filled(alloc, &points, k as usize)?)?;
        }
    }
    Ok(blocks)
}

/// The sets of k points below v, by their bits as a number.
pub fn all(alloc: Global, v: u8, k: u8) -> Result<Blocks, AllocError> {
    let mut blocks = Vec::new(alloc);
    for bits in 0..1u32 << v.min(16) {
        if bits.count_ones() == u32::from(k) {
            let mut points = Vec::new(alloc);
            for p in 0..16u8 {
                if bits >> p & 1 == 1 {
                    points.push(p)?;
                }
            }
            blocks.push(points)?;
        }
    }
    Ok(blocks)
}

/// The blocks through all the points, without them, each other point lowered by the number of them below it.
pub fn derived(alloc: Global, from: &[Vec<u8>], through: &[u8]) -> Result<Blocks, AllocError> {
    let mut blocks = Vec::new(alloc);
    for b in from {
        if through.iter().all(|x| b.contains(x)) {
            blocks.push(lowered(alloc, b, through)?)?;
        }
    }
    Ok(blocks)
}

fn lowered(alloc: Global, b: &[u8], removed: &[u8]) -> Result<Vec<u8>, AllocError> {
    let mut points = Vec::new(alloc);
    for p in b {
        if !removed.contains(p) {
            let below = removed.iter().filter(|x| *x < p).count();
            points.push(p.saturating_sub(below.min(99) as u8))?;
        }
    }
    Ok(points)
}

pub fn dropped(alloc: Global, from: &[Vec<u8>], v: u8) -> Result<Blocks, AllocError> {
    let mut blocks = Vec::new(alloc);
    for b in from {
        let mut points = Vec::new(alloc);
        for p in b {
            if *p != v {
                points.push(*p)?;
            }
        }
        blocks.push(filled(alloc, &points, b.len())?)?;
    }
    Ok(blocks)
}

pub fn grown(alloc: Global, from: &[Vec<u8>], k: u8) -> Result<Blocks, AllocError> {
    let mut blocks = Vec::new(alloc);
    for b in from {
        blocks.push(filled(alloc, b, k as usize)?)?;
    }
    Ok(blocks)
}

/// Appends one part of a product.
pub fn joined(
    alloc: Global,
    blocks: &mut Blocks,
    first: &[Vec<u8>],
    second: &[Vec<u8>],
    v1: u8,
) -> Result<(), AllocError> {
    for d in first {
        for e in second {
            let mut points = d.to_vec(alloc)?;
            for p in e {
                points.push(p.saturating_add(v1))?;
            }
            blocks.push(points)?;
        }
    }
    Ok(())
}

/// `children` has the blocks for cuts of l points at place l.
pub fn induced(
    alloc: Global,
    from: &[Vec<u8>],
    w: u8,
    k: usize,
    t: usize,
    children: &[Blocks],
) -> Result<Blocks, AllocError> {
    let mut blocks = Vec::new(alloc);
    for b in from {
        let mut cut = Vec::new(alloc);
        for p in b {
            if *p < w {
                cut.push(*p)?;
            }
        }
        if t <= cut.len() && cut.len() <= k {
            blocks.push(filled(alloc, &cut, k)?)?;
        } else if k < cut.len() {
            placed(alloc, &mut blocks, &cut, children)?;
        }
    }
    Ok(blocks)
}

fn placed(
    alloc: Global,
    blocks: &mut Blocks,
    cut: &[u8],
    children: &[Blocks],
) -> Result<(), AllocError> {
    if let Some(child) = children.get(cut.len()) {
        for b in child {
            let mut points = Vec::new(alloc);
            for i in b {
                if let Some(p) = cut.get(*i as usize) {
                    points.push(*p)?;
                }
            }
            blocks.push(points)?;
        }
    }
    Ok(())
}

/// The cost of an induced rule, whose children cost what stands at the sizes of their cuts.
pub fn induced_cost(from: &[Vec<u8>], w: u8, k: usize, t: usize, children: &[u64]) -> u64 {
    let mut cost = 0u64;
    for b in from {
        let l = b.iter().filter(|p| **p < w).count();
        let price = match children.get(l) {
            Some(child) if k < l => *child,
            _ => u64::from(t <= l && l <= k),
        };
        cost = cost.saturating_add(price);
    }
    cost
}
