ghost use Rattle.std.specs.Prelude.{◌≡◌, IfOk};
ghost use Rattle.lj_base.specs.Blocks.{Covers};
ghost use Rattle.lj_base.specs.Cells.{IsCell};

use lj_base::{Block, Cell, Memory};
use std::alloc::Global;
use std::marker::Model;

/// A cell and a list of blocks that covers it.
#[derive(Debug, Drop)]
pub struct Design {
    cell: Cell,
    blocks: Vec<Block>,
}

impl Model for Design {
    ghost use Rattle.lj_cover.specs.Designs.{Covering};
    ghost use Rattle.lj_base.specs.Blocks.{Covers};

    ghost Value = { Covering };

    ghost view = { λ d. record { cell = d.cell; blocks = d.blocks.items } };

    ghost invariant = { λ d. Covers d.blocks.items d.cell };
}

impl Design {
    /// The design of a list that covers.
    pub fn of(cell: Cell, blocks: Vec<Block>) -> Design
        requires { Covers blocks.items cell }
        ensures { result ≡ record { cell = cell; blocks = blocks.items } }
    {
        Design { cell, blocks }
    }

    /// The cell that the blocks cover.
    pub fn cell(&self) -> Cell
        ensures { result ≡ self.now.cell }
    {
        self.cell
    }

    /// The blocks, in their order.
    pub fn blocks(&self) -> &[Block]
        ensures blocks { result.now ≡ self.now.blocks }
        ensures covers { Covers self.now.blocks self.now.cell }
        ensures limits { IsCell self.now.cell }
    {
        // A cell is within the limits, as one of its numbers is read.
        let _points = self.cell.v;
        &self.blocks
    }

    /// A second design of the same cell and blocks.
    pub fn copy(&self, alloc: Global) -> Result<Design, Memory>
        ensures { IfOk result (λ design. design ≡ self.now) }
    {
        Ok(Design {
            cell: self.cell,
            blocks: self.blocks.to_vec(alloc)?,
        })
    }
}
