ghost use Rattle.std.specs.Prelude.{◌≡◌, ◌+◌, ◌<◌, ◌≤◌, [], ◌∷◌, IfSome, None};
ghost use Rattle.std.specs.Iterator.{YieldsFirst, item_count};
ghost use Rattle.lj_base.specs.Cells.{IsCell, Triple};
ghost use Rattle.lj_base.specs.Frames.{InFrame, key};
ghost use Rattle.lj_cover.specs.Instances.{Reads};
ghost use Rattle.lj_cover.specs.Rules.{triple};
ghost use Rattle.lj_relax.specs.Readers.{AreReaders, HasNone, IsFactor, IsFirst, IsFirstFactor, readers_from};

use crate::tickets::first_cell;
use lj_base::{Cell, Frame, cells_law, index_order_law};
use std::marker::Model;

/// A walk through the cells of a frame that read a cell, in index order, seen as those that are left. Each step
/// compares a few numbers, whatever the size of the frame.
#[derive(Drop)]
pub struct Dependents {
    frame: Frame,
    child: Cell,
    v: u8,
    k: u8,
    t: u8,
}

impl Model for Dependents {
    ghost use Rattle.std.specs.Prelude.{◌≤◌, List};
    ghost use Rattle.lj_base.specs.Cells.{Triple};
    ghost use Rattle.lj_base.specs.Frames.{InFrame, key};
    ghost use Rattle.lj_cover.specs.Rules.{triple};
    ghost use Rattle.lj_relax.specs.Readers.{readers_from};

    ghost Value = { List Triple };

    ghost view = { λ d. readers_from d.frame d.child (key (triple d.v d.k d.t)) };

    ghost invariant = { λ d. InFrame d.frame d.child × (d.v ≤ 99) × (d.k ≤ 25) × (d.t ≤ 9) };
}

impl Dependents {
    /// All cells of the frame that read the child.
    pub fn of(frame: Frame, child: Cell) -> Dependents
        requires { InFrame frame child }
        ensures { AreReaders frame child result }
    {
        cells_law();
        let Cell { v, k, t } = first_cell(frame);
        Dependents {
            frame,
            child,
            v,
            k,
            t,
        }
    }
}

impl Iterator for Dependents {
    type Item = Cell;

    ghost next_gives = { YieldsFirst (λ left. left) };

    ghost remaining = { item_count (λ left. left) };

    #[inline(always)]
    fn next(&mut self) -> Option<Cell> {
        let found = next_from(self.frame, self.child, self.v, self.k, self.t)?;
        self.v = found.v;
        self.k = found.k;
        self.t = found.t + 1;
        Some(found)
    }
}

// The first of the readers that are left at a place.
#[inline(always)]
fn next_from(frame: Frame, child: Cell, v: u8, k: u8, t: u8) -> Option<Cell>
    requires inside { InFrame frame child }
    requires v { v ≤ 99 }
    requires k { k ≤ 25 }
    requires t { t ≤ 9 }
    ensures first { IfSome result (λ d. readers_from frame child (key (triple v k t))
        ≡ d ∷ readers_from frame child (key d + 1)) }
    ensures none { result ≡ None → readers_from frame child (key (triple v k t)) ≡ [] }
{
    cells_law();
    index_order_law();
    first_from(frame, child, v, k, t)
}

// The first reader of the child from a place on.
#[inline(always)]
fn first_from(frame: Frame, child: Cell, v: u8, k: u8, t: u8) -> Option<Cell>
    requires inside { InFrame frame child }
    requires v { v ≤ 99 }
    requires k { k ≤ 25 }
    requires t { t ≤ 9 }
    ensures first { IfSome result (IsFirst frame child (key (triple v k t))) }
    ensures none { result ≡ None → HasNone frame child (key (triple v k t)) }
    ensures limits { IsCell frame.top }
{
    match close_from(frame, child, v, k, t) {
        Some(found) => Some(found),
        None => factor_from(frame, child, v, k, t),
    }
}

// The first reader with at most the child's points, from a place on.
#[inline(always)]
fn close_from(frame: Frame, child: Cell, v: u8, k: u8, t: u8) -> Option<Cell>
    requires inside { InFrame frame child }
    requires v { v ≤ 99 }
    requires k { k ≤ 25 }
    requires t { t ≤ 9 }
    ensures first { IfSome result (IsFirst frame child (key (triple v k t))) }
    ensures none { result ≡ None → (e : Triple) → InFrame frame e → Reads frame e child
        → key (triple v k t) ≤ key e → IsFactor child e }
    ensures limits { IsCell frame.top }
{
    let from = key_of(v, k, t);
    let c = child;
    let top = frame.top;
    if c.v < v {
        return None;
    }
    if 1 < c.v && c.k < c.v && from <= key_of(c.v - 1, c.k, c.t) {
        return Some(Cell {
            v: c.v - 1,
            k: c.k,
            t: c.t,
        });
    }
    if 0 < c.t && from <= key_of(c.v, c.k, c.t - 1) {
        return Some(Cell {
            v: c.v,
            k: c.k,
            t: c.t - 1,
        });
    }
    if c.k < c.v && c.v <= top.k && from <= key_of(c.v, c.k, c.t) {
        return Some(c);
    }
    if c.k < c.v && c.k < top.k && from <= key_of(c.v, c.k + 1, c.t) {
        return Some(Cell {
            v: c.v,
            k: c.k + 1,
            t: c.t,
        });
    }
    None
}

fn key_of(v: u8, k: u8, t: u8) -> u32
    ensures { result ≡ key (triple v k t) }
{
    (v as u32 * 100 + k as u32) * 100 + t as u32
}

// The first reader with more points than the child, from a place on.
#[inline(always)]
fn factor_from(frame: Frame, child: Cell, v: u8, k: u8, t: u8) -> Option<Cell>
    requires inside { InFrame frame child }
    requires v { v ≤ 99 }
    requires k { k ≤ 25 }
    requires t { t ≤ 9 }
    ensures first { IfSome result (IsFirstFactor frame child (key (triple v k t))) }
    ensures none { result ≡ None → (e : Triple) → InFrame frame e → IsFactor child e → key (triple v k t) ≤ key e → ⊥ }
{
    let c = child;
    let top = frame.top;
    if v <= c.v {
        return first_with(frame, c, c.v + 1);
    }
    if v > top.v {
        return None;
    }
    let most = top.k.min(c.k + (v - c.v));
    if most < k {
        return first_with(frame, c, v + 1);
    }
    if k < c.k {
        return Some(Cell { v, k: c.k, t: c.t });
    }
    if t <= top.t.min(c.t + (k - c.k)) {
        return Some(Cell {
            v,
            k,
            t: t.max(c.t),
        });
    }
    if k < most {
        return Some(Cell {
            v,
            k: k + 1,
            t: c.t,
        });
    }
    first_with(frame, c, v + 1)
}

// The first reader with this v, which is greater than the child's.
fn first_with(frame: Frame, c: Cell, v: u8) -> Option<Cell>
    requires inside { InFrame frame c }
    requires more { c.v < v }
    requires small { v ≤ 100 }
    ensures first { IfSome result (λ d. (d ≡ triple v c.k c.t) × (v ≤ frame.top.v)) }
    ensures none { result ≡ None → frame.top.v < v }
{
    if v <= frame.top.v {
        Some(Cell { v, k: c.k, t: c.t })
    } else {
        None
    }
}
