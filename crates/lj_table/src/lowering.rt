ghost use Rattle.std.specs.Prelude.{◌≡◌, ◌<◌, ◌≤◌, All, length, true};
ghost use Rattle.lj_base.specs.Bounds.{AreBounds, at_cell};
ghost use Rattle.lj_base.specs.Frames.{InFrame, size_of};
ghost use Rattle.lj_cover.specs.Instances.{AreUploads, IsRowOf};
ghost use Rattle.lj_relax.specs.Found.{IsFound, found_cost};
ghost use Rattle.lj_relax.specs.Steps.{IsBelow};
ghost use Rattle.lj_relax.specs.Tickets.{snapshot};
ghost use Rattle.lj_table.specs.Lowering.{IsLowered, IsStored};
ghost use Rattle.lj_table.specs.RulesOver.{IsRuleFor};
ghost use Rattle.lj_table.specs.Tables.{AreLists, AreNodes, Fits, contents_of};

use crate::readers::open_readers;
use crate::rules::rule_over;
use crate::store::Store;
use lj_base::{Cell, Row, choose_law};
use lj_deriv::Rule;
use lj_relax::{Found, Proposal};

impl Store {
    /// The bound of a cell.
    pub fn bound(&self, c: Cell) -> u64
        requires inside { InFrame self.now.arena.frame c }
        requires count { length self.now.bounds.items ≡ size_of self.now.arena.frame }
        ensures { result ≡ at_cell self.now.arena.frame self.now.bounds.items c }
    {
        self.arena.frame().at_cell(&self.bounds, c)
    }

    /// The cost becomes the bound of the cell, and a new node of the rule its node.
    pub fn put(&mut self, c: Cell, cost: u64, rule: Rule)
        requires room { 1 ≤ self.old.arena.spare }
        requires inside { InFrame self.old.arena.frame c }
        requires lists { AreLists (contents_of self.old) }
        requires rule { IsRuleFor self.old.arena c cost rule }
        ensures { IsStored (contents_of self.old) c cost (contents_of self.new) }
    {
        let i = self.arena.frame().index(c) as usize;
        let node = self.arena.add(rule);
        self.bounds[i] = cost;
        self.nodes[i] = node;
    }

    /// Where the proposal's price is below its cell's bound, the price becomes the bound, by a new node over the
    /// ticket's nodes, and the other cells that read the cell are opened.
    pub fn lower(&mut self, p: &Proposal) -> bool
        requires room { 1 ≤ self.old.arena.spare }
        requires lists { AreLists (contents_of self.old) }
        requires fits { Fits self.old.arena p.now.ticket }
        requires uploads { AreUploads self.old.arena.frame self.old.arena.uploads }
        requires bounds { AreBounds self.old.arena.frame self.old.bounds.items }
        ensures { IsLowered (contents_of self.old) p.now result (contents_of self.new) }
    {
        choose_law();
        let ticket = p.ticket();
        let (frame, c) = (ticket.frame(), ticket.cell());
        let Some(cost) = p.cost() else {
            return false;
        };
        if cost >= self.bound(c) {
            return false;
        }
        let found = p.found();
        let rule = rule_over(
            &self.arena,
            frame,
            c,
            ticket.bounds(),
            ticket.nodes(),
            ticket.rows(),
            &found,
        );
        self.put(c, cost, rule);
        open_readers(frame, c, &mut self.closed, &mut self.busy);
        true
    }

    /// Lowers a cell's bound to what was found over the table's own lists, which is below it, with no ticket.
    pub fn lower_here(&mut self, c: Cell, rows: &[Row], found: &Found)
        requires room { 1 ≤ self.old.arena.spare }
        requires inside { InFrame self.old.arena.frame c }
        requires lists { AreLists (contents_of self.old) }
        requires nodes { AreNodes self.old.arena.frame self.old.arena self.old.nodes.items self.old.bounds.items }
        requires rows { All (IsRowOf self.old.arena.uploads c) rows.now }
        requires uploads { AreUploads self.old.arena.frame self.old.arena.uploads }
        requires bounds { AreBounds self.old.arena.frame self.old.bounds.items }
        requires found { IsFound self.old.arena.frame
            (snapshot self.old.arena.frame c self.old.bounds.items rows.now) found.now }
        requires below { IsBelow (found_cost found.now) (at_cell self.old.arena.frame self.old.bounds.items c) }
        ensures { IsLowered (contents_of self.old) (record {
          ticket = record {
            frame = self.old.arena.frame;
            cell = c;
            bounds = self.old.bounds.items;
            nodes = self.old.nodes.items;
            rows = rows.now;
            room = 0;
          };
          found = found.now;
        }) true (contents_of self.new) }
    {
        choose_law();
        let frame = self.arena.frame();
        let Some(cost) = found.cost() else {
            unreachable!()
        };
        let rule = rule_over(
            &self.arena,
            frame,
            c,
            &self.bounds,
            &self.nodes,
            rows,
            found,
        );
        self.put(c, cost, rule);
        open_readers(frame, c, &mut self.closed, &mut self.busy);
    }
}
