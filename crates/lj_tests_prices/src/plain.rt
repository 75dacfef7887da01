//! Plain programs: each tries all instances, with no table of offsets, no tails and no mirror.

use lj_base::{Cell, Frame, Row};

/// The number for three numbers, where they are a cell of the frame.
pub fn number(frame: Frame, numbers: &[u64], v: u64, k: u64, t: u64) -> Option<u64> {
    let cell = Cell::new(v, k, t).ok()?;
    if !frame.has(cell) {
        return None;
    }
    numbers.get(frame.index(cell) as usize).copied()
}

/// The lesser of two numbers, where they are there.
pub fn lesser(a: Option<u64>, b: Option<u64>) -> Option<u64> {
    match (a, b) {
        (Some(m), Some(n)) => Some(m.min(n)),
        (Some(m), None) => Some(m),
        (None, n) => n,
    }
}

pub fn elementary(frame: Frame, numbers: &[u64], c: Cell) -> Option<u64> {
    let (v, k, t) = (u64::from(c.v), u64::from(c.k), u64::from(c.t));
    let drop = number(frame, numbers, v + 1, k, t);
    let mut least = drop;
    if t < k {
        least = lesser(least, number(frame, numbers, v.saturating_sub(1), k - 1, t));
        least = lesser(least, number(frame, numbers, v, k - 1, t));
        least = lesser(least, number(frame, numbers, v, k, t + 1));
    }
    least
}

/// The least price of the part from a to b, with v1 of the points on the first side, over all numbers of points there.
fn part(frame: Frame, numbers: &[u64], c: Cell, v1: u64, a: u64, b: u64) -> Option<u64> {
    let (v, k, t) = (u64::from(c.v), u64::from(c.k), u64::from(c.t));
    let mut least = None;
    for l in 0..k + 1 {
        let first = number(frame, numbers, v1, l, b);
        let second = number(
            frame,
            numbers,
            v.saturating_sub(v1),
            k - l,
            t.saturating_sub(a),
        );
        if let (Some(m), Some(n)) = (first, second) {
            least = lesser(least, Some(m.saturating_mul(n)));
        }
    }
    least
}

/// The price of one cut of the numbers from lo to hi into intervals: one ends after each number whose bit is set.
fn cut(
    frame: Frame,
    numbers: &[u64],
    c: Cell,
    v1: u64,
    lo: u64,
    hi: u64,
    ends: u64,
) -> Option<u64> {
    let mut price = 0u64;
    let mut a = lo;
    for b in lo..hi.saturating_add(1) {
        if b == hi || (ends >> (b - lo).min(60)) & 1 == 1 {
            price = price.saturating_add(part(frame, numbers, c, v1, a, b)?);
            a = b.saturating_add(1);
        }
    }
    Some(price)
}

pub fn product(frame: Frame, numbers: &[u64], c: Cell) -> Option<u64> {
    let (v, t) = (u64::from(c.v), u64::from(c.t));
    let mut least = None;
    for v1 in 1..v {
        let lo = t.saturating_sub(v - v1);
        let hi = t.min(v1);
        let cuts = 1u64 << hi.saturating_sub(lo).min(8);
        for ends in 0..cuts {
            least = lesser(least, cut(frame, numbers, c, v1, lo, hi, ends));
        }
    }
    least
}

/// The price of a row.
fn row(frame: Frame, numbers: &[u64], c: Cell, row: &Row) -> u64 {
    let (k, t) = (u64::from(c.k), u64::from(c.t));
    let mut price = 0u64;
    let mut l = 0u64;
    for count in row.counts {
        let each = if l < t {
            0
        } else if l <= k {
            1
        } else {
            number(frame, numbers, l, k, t).unwrap_or(0)
        };
        price = price.saturating_add(u64::from(count).saturating_mul(each));
        l = l.saturating_add(1);
    }
    price
}

pub fn induced(frame: Frame, numbers: &[u64], c: Cell, rows: &[Row]) -> Option<u64> {
    let mut least = None;
    for r in rows {
        least = lesser(least, Some(row(frame, numbers, c, r)));
    }
    least
}

fn same(c: Cell, v: u64, k: u64, t: u64) -> bool {
    u64::from(c.v) == v && u64::from(c.k) == k && u64::from(c.t) == t
}

/// Whether the child is one of the cells of some part of some product at the reader.
fn in_product(reader: Cell, child: Cell) -> bool {
    let (v, k, t) = (
        u64::from(reader.v),
        u64::from(reader.k),
        u64::from(reader.t),
    );
    let mut found = false;
    for v1 in 1..v {
        for s in t.saturating_sub(v - v1)..t.min(v1).saturating_add(1) {
            for l in 0..k + 1 {
                let other = t.saturating_sub(s);
                let fits = Cell::new(v1, l, s).is_ok() && Cell::new(v - v1, k - l, other).is_ok();
                found = found
                    || (fits && (same(child, v1, l, s) || same(child, v - v1, k - l, other)));
            }
        }
    }
    found
}

pub fn reads(frame: Frame, reader: Cell, child: Cell) -> bool {
    let (v, k, t) = (
        u64::from(reader.v),
        u64::from(reader.k),
        u64::from(reader.t),
    );
    let mut found = same(child, v + 1, k, t) || in_product(reader, child);
    if t < k {
        found = found || same(child, v.saturating_sub(1), k - 1, t);
        found = found || same(child, v, k - 1, t) || same(child, v, k, t + 1);
    }
    for l in k + 1..v.min(u64::from(frame.top.k)).saturating_add(1) {
        found = found || same(child, l, k, t);
    }
    found
}
