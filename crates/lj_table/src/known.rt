ghost use Rattle.std.specs.Prelude.{◌≡◌, ◌≢◌, ◌↔◌, IsTrue, length};
ghost use Rattle.lj_base.specs.Bounds.{at_cell};
ghost use Rattle.lj_base.specs.Cells.{Triple};
ghost use Rattle.lj_base.specs.Frames.{InFrame, size_of};
ghost use Rattle.lj_cover.specs.Instances.{Reads};
ghost use Rattle.lj_table.specs.Lowering.{AgreesWith};
ghost use Rattle.lj_table.specs.Tables.{IsOfFirst, IsTable, contents_of};

use crate::agreement::same_rows;
use crate::places::places_law;
use crate::store::Store;
use lj_base::Cell;
use lj_relax::laws::bounds_are_positive;
use lj_relax::{Ticket, reads};

// Tickets whose lists are known to be those that the table had when it had made so many nodes.
impl Store {
    /// The node of a cell.
    pub fn node(&self, c: Cell) -> u64
        requires inside { InFrame self.now.arena.frame c }
        requires count { length self.now.nodes.items ≡ size_of self.now.arena.frame }
        ensures { result ≡ at_cell self.now.arena.frame self.now.nodes.items c }
    {
        self.arena.frame().at_cell(&self.nodes, c)
    }

    /// Brings a ticket's lists up to date: for each node that has come since, what its cell has now is stored.
    pub fn copy_since(&self, nodes: u64, ticket: &mut Ticket)
        requires table { IsTable (contents_of self.now) }
        requires known { IsOfFirst self.now.arena nodes ticket.old }
        ensures { ticket.new
            ≡ record ticket.old { bounds = self.now.bounds.items; nodes = self.now.nodes.items } }
    {
        bounds_are_positive();
        places_law(self.arena.frame());
        self.arena.nodes_derive();
        let _ = ticket.bounds();
        let _ = ticket.nodes();
        for node in nodes..self.arena.len() {
            let c = self.arena.cell(node);
            ticket.store(c, self.bound(c), self.node(c));
        }
    }

    /// `agrees`, by the rows and the nodes that have come since alone. Cost: a few steps for each of these.
    pub fn agrees_since(&self, nodes: u64, ticket: &Ticket) -> bool
        requires table { IsTable (contents_of self.now) }
        requires known { IsOfFirst self.now.arena nodes ticket.now }
        ensures { IsTrue result ↔ AgreesWith self.now.arena self.now.bounds.items ticket.now }
    {
        let (frame, c) = (ticket.frame(), ticket.cell());
        same_rows(self.arena.uploads(), frame, c, ticket.rows())
            && self.reads_same_since(nodes, ticket)
    }

    // Whether the ticket has the bounds of now at each cell that its cell reads.
    fn reads_same_since(&self, nodes: u64, ticket: &Ticket) -> bool
        requires table { IsTable (contents_of self.now) }
        requires known { IsOfFirst self.now.arena nodes ticket.now }
        ensures { IsTrue result ↔ ((d : Triple) → InFrame self.now.arena.frame d
            → Reads self.now.arena.frame ticket.now.cell d
            → at_cell ticket.now.frame ticket.now.bounds d
            ≡ at_cell self.now.arena.frame self.now.bounds.items d) }
    {
        self.arena.nodes_derive();
        for node in nodes..self.arena.len() {
            if self.reads_other(self.arena.cell(node), ticket) {
                return false;
            }
        }
        true
    }

    // Whether the ticket's cell reads the cell, and the ticket has another bound of it than the one of now.
    fn reads_other(&self, d: Cell, ticket: &Ticket) -> bool
        requires inside { InFrame self.now.arena.frame d }
        requires frame { ticket.now.frame ≡ self.now.arena.frame }
        requires count { length self.now.bounds.items ≡ size_of self.now.arena.frame }
        ensures { IsTrue result ↔ (Reads self.now.arena.frame ticket.now.cell d
            × (at_cell ticket.now.frame ticket.now.bounds d ≢ at_cell self.now.arena.frame self.now.bounds.items d)) }
    {
        reads(ticket.frame(), ticket.cell(), d) && ticket.bound(d) != self.bound(d)
    }
}
