ghost use Rattle.std.specs.Prelude.{◌≡◌, ◌+◌, ◌-◌, ◌≤◌, ◌↔◌, IfOk, IfSome, IsOk, IsSome};
ghost use Rattle.lj_base.specs.Cells.{IsCell};

use std::marker::Model;
use thiserror::Error;

/// What a covering is asked for: `v` points, blocks of `k` points, and each set of `t` points within some block.
#[derive(Clone, Copy, Debug, PartialEq, Eq)]
pub struct Cell {
    pub v: u8,
    pub k: u8,
    pub t: u8,
}

impl Model for Cell {
    ghost use Rattle.lj_base.specs.Cells.{IsCell, Triple};

    ghost Value = { Triple };

    ghost view = { λ c. record { v = c.v; k = c.k; t = c.t } };

    ghost invariant = { λ c. IsCell (record { v = c.v; k = c.k; t = c.t }) };

    ghost inverse = { λ c. record { v = c.v; k = c.k; t = c.t } };
}

/// Three numbers are not those of a cell: they are not within the limits.
#[derive(Clone, Copy, Debug, PartialEq, Eq, Error)]
#[error("no cell: 1 <= v <= 99, t <= k <= v, k <= 25 and t <= 8 do not all hold")]
pub struct Outside;

impl Cell {
    /// The cell of three numbers, where they are within the limits.
    pub fn new(v: u64, k: u64, t: u64) -> Result<Cell, Outside>
        ensures inside { IsOk result ↔ IsCell (record { v = v; k = k; t = t }) }
        ensures value { IfOk result (λ c. c ≡ record { v = v; k = k; t = t }) }
    {
        let ordered = t <= k && k <= v;
        if ordered && 1 <= v && v <= 99 && k <= 25 && t <= 8 {
            Ok(Cell {
                v: v as u8,
                k: k as u8,
                t: t as u8,
            })
        } else {
            Err(Outside)
        }
    }

    /// The cell of three numbers, where they are within the limits and a block has a point.
    pub fn with_blocks(v: u64, k: u64, t: u64) -> Option<Cell>
        ensures inside { IsSome result ↔ (IsCell (record { v = v; k = k; t = t }) × (1 ≤ k)) }
        ensures value { IfSome result (λ c. c ≡ record { v = v; k = k; t = t }) }
    {
        if k < 1 {
            return None;
        }
        Cell::new(v, k, t).ok()
    }

    /// With one point less: what a covering gives whose last point is dropped.
    pub fn dropped(self) -> Cell
        requires { IsCell (record { v = self.v - 1; k = self.k; t = self.t }) }
        ensures { result ≡ record { v = self.v - 1; k = self.k; t = self.t } }
    {
        Cell {
            v: self.v - 1,
            k: self.k,
            t: self.t,
        }
    }

    /// With one point more, which is added to each block.
    pub fn added(self) -> Cell
        requires { IsCell (record { v = self.v + 1; k = self.k + 1; t = self.t }) }
        ensures { result ≡ record { v = self.v + 1; k = self.k + 1; t = self.t } }
    {
        Cell {
            v: self.v + 1,
            k: self.k + 1,
            t: self.t,
        }
    }

    /// With blocks of one point more.
    pub fn grown(self) -> Cell
        requires { IsCell (record { v = self.v; k = self.k + 1; t = self.t }) }
        ensures { result ≡ record { v = self.v; k = self.k + 1; t = self.t } }
    {
        Cell {
            v: self.v,
            k: self.k + 1,
            t: self.t,
        }
    }

    /// With sets of one point less.
    pub fn lowered(self) -> Cell
        requires { 1 ≤ self.t }
        ensures { result ≡ record { v = self.v; k = self.k; t = self.t - 1 } }
    {
        Cell {
            v: self.v,
            k: self.k,
            t: self.t - 1,
        }
    }

    /// With `n` points less, also in each block and in each set: what the blocks through `n` points cover without them.
    pub fn derived(self, n: u8) -> Cell
        requires sets { n ≤ self.t }
        requires points { n + 1 ≤ self.v }
        ensures { result ≡ record { v = self.v - n; k = self.k - n; t = self.t - n } }
    {
        Cell {
            v: self.v - n,
            k: self.k - n,
            t: self.t - n,
        }
    }
}
