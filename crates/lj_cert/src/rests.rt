ghost use Rattle.std.specs.Prelude.{◌≡◌, length};
ghost use Rattle.lj_base.specs.Bounds.{at_cell};
ghost use Rattle.lj_base.specs.Frames.{InFrame, size_of};
ghost use Rattle.lj_cover.specs.Derivations.{IsLeast};
ghost use Rattle.lj_cert.specs.Rests.{AreLeast};

use lj_base::{Cell, Frame};
use lj_deriv::Arena;
use std::marker::Model;

/// A frame, uploads, and for each cell of the frame the least cost of any derivation in the frame from these uploads.
#[derive(Drop)]
pub struct Rest {
    arena: Arena,
    bounds: Vec<u64>,
}

impl Model for Rest {
    ghost use Rattle.lj_cert.specs.Rests.{AreLeast, RestValue};

    ghost Value = { RestValue };

    ghost view = { λ r. record { frame = r.arena.frame; uploads = r.arena.uploads; bounds = r.bounds.items } };

    ghost invariant = { λ r. AreLeast (record {
      frame = r.arena.frame;
      uploads = r.arena.uploads;
      bounds = r.bounds.items;
    }) };
}

impl Rest {
    // The bounds of the arena's uploads.
    pub(crate) fn of(arena: Arena, bounds: Vec<u64>) -> Rest
        requires { AreLeast (record { frame = arena.frame; uploads = arena.uploads; bounds = bounds.items }) }
        ensures { result ≡ record { frame = arena.frame; uploads = arena.uploads; bounds = bounds.items } }
    {
        Rest { arena, bounds }
    }

    /// The frame whose cells have bounds.
    pub fn frame(&self) -> Frame
        ensures { result ≡ self.now.frame }
    {
        self.arena.frame()
    }

    /// The bound of a cell, in blocks.
    pub fn bound(&self, c: Cell) -> u64
        requires { InFrame self.now.frame c }
        ensures bound { result ≡ at_cell self.now.frame self.now.bounds c }
        ensures least { IsLeast self.now.frame self.now.uploads c result }
    {
        self.arena.frame().at_cell(&self.bounds, c)
    }

    /// The number of the uploads.
    pub fn uploads(&self) -> u64
        ensures count { result ≡ length self.now.uploads }
        ensures rest { AreLeast self.now }
    {
        self.arena.uploads().len() as u64
    }

    /// The number of the frame's cells.
    pub fn cells(&self) -> u64
        ensures { result ≡ size_of self.now.frame }
    {
        self.arena.frame().size()
    }
}
