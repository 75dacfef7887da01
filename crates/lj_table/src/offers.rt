ghost use Rattle.std.specs.Prelude.{◌<◌, ◌≤◌, length};
ghost use Rattle.lj_base.specs.Frames.{InFrame};
ghost use Rattle.lj_deriv.specs.Nodes.{upload_at};
ghost use Rattle.lj_table.specs.Accepting.{IsOffered, IsStage, IsTakenIn};
ghost use Rattle.lj_table.specs.RulesOver.{IsRuleFor};
ghost use Rattle.lj_table.specs.Tables.{AreLists, contents_of};

use crate::readers::{open_all_readers, open_served};
use crate::store::Store;
use lj_base::Cell;
use lj_deriv::Rule;

impl Store {
    /// The upload at the place lowers its own cell, the cell derived at its point of least degree and the cell derived
    /// at its pair of least degree, where these cost less. The cells that read one of which the bound fell are opened,
    /// and so are those at which the upload has a row.
    pub fn take_in(&mut self, u: u32)
        requires room { 3 ≤ self.old.arena.spare }
        requires held { u < length self.old.arena.uploads }
        requires inside { InFrame self.old.arena.frame (upload_at self.old.arena.uploads u).cell }
        requires lists { AreLists (contents_of self.old) }
        ensures { IsTakenIn (upload_at self.old.arena.uploads u) (contents_of self.old) (contents_of self.new) }
    {
        self.offer_leaf(u);
        self.offer_derived(u);
        self.offer_derived_twice(u);
        let cell = self.arena.upload(u).design().cell();
        open_served(self.arena.frame(), cell, &mut self.closed, &mut self.busy);
    }

    // Where a rule costs less than the cell's bound, the cost becomes the bound, and the cell's readers are opened.
    fn offer(&mut self, c: Cell, cost: u64, rule: Rule)
        requires room { 1 ≤ self.old.arena.spare }
        requires inside { InFrame self.old.arena.frame c }
        requires lists { AreLists (contents_of self.old) }
        requires rule { IsRuleFor self.old.arena c cost rule }
        ensures { IsOffered c cost (contents_of self.old) (contents_of self.new) }
    {
        if cost < self.bound(c) {
            self.put(c, cost, rule);
            open_all_readers(self.arena.frame(), c, &mut self.closed, &mut self.busy);
        }
    }

    fn offer_leaf(&mut self, u: u32)
        requires room { 1 ≤ self.old.arena.spare }
        requires held { u < length self.old.arena.uploads }
        requires inside { InFrame self.old.arena.frame (upload_at self.old.arena.uploads u).cell }
        requires lists { AreLists (contents_of self.old) }
        ensures { IsStage (upload_at self.old.arena.uploads u) 0 1 1 (contents_of self.old) (contents_of self.new) }
    {
        let design = self.arena.upload(u).design();
        let c = design.cell();
        let cost = design.blocks().len() as u64;
        self.offer(c, cost, Rule::Leaf { upload: u });
    }

    fn offer_derived(&mut self, u: u32)
        requires room { 1 ≤ self.old.arena.spare }
        requires held { u < length self.old.arena.uploads }
        requires inside { InFrame self.old.arena.frame (upload_at self.old.arena.uploads u).cell }
        requires lists { AreLists (contents_of self.old) }
        ensures { IsStage (upload_at self.old.arena.uploads u) 1 2 1 (contents_of self.old) (contents_of self.new) }
    {
        let cell = self.arena.upload(u).design().cell();
        if cell.t >= 1 && cell.v >= 2 {
            self.offer_point(u);
        }
    }

    fn offer_derived_twice(&mut self, u: u32)
        requires room { 1 ≤ self.old.arena.spare }
        requires held { u < length self.old.arena.uploads }
        requires inside { InFrame self.old.arena.frame (upload_at self.old.arena.uploads u).cell }
        requires lists { AreLists (contents_of self.old) }
        ensures { IsStage (upload_at self.old.arena.uploads u) 2 3 1 (contents_of self.old) (contents_of self.new) }
    {
        let cell = self.arena.upload(u).design().cell();
        if cell.t >= 2 && cell.v >= 3 {
            self.offer_pair(u);
        }
    }

    // The blocks through the point of least degree, without it.
    fn offer_point(&mut self, u: u32)
        requires room { 1 ≤ self.old.arena.spare }
        requires held { u < length self.old.arena.uploads }
        requires inside { InFrame self.old.arena.frame (upload_at self.old.arena.uploads u).cell }
        requires lists { AreLists (contents_of self.old) }
        requires t { 1 ≤ (upload_at self.old.arena.uploads u).cell.t }
        requires v { 2 ≤ (upload_at self.old.arena.uploads u).cell.v }
        ensures { IsStage (upload_at self.old.arena.uploads u) 1 2 1 (contents_of self.old) (contents_of self.new) }
    {
        let up = self.arena.upload(u);
        let (point, cost) = up.least();
        let c = up.design().cell().derived(1);
        self.offer(c, cost, Rule::Derived { upload: u, point });
    }

    // The blocks through both points of the pair that is on the fewest, without the two.
    fn offer_pair(&mut self, u: u32)
        requires room { 1 ≤ self.old.arena.spare }
        requires held { u < length self.old.arena.uploads }
        requires inside { InFrame self.old.arena.frame (upload_at self.old.arena.uploads u).cell }
        requires lists { AreLists (contents_of self.old) }
        requires t { 2 ≤ (upload_at self.old.arena.uploads u).cell.t }
        requires v { 3 ≤ (upload_at self.old.arena.uploads u).cell.v }
        ensures { IsStage (upload_at self.old.arena.uploads u) 2 3 1 (contents_of self.old) (contents_of self.new) }
    {
        let up = self.arena.upload(u);
        let (first, second, cost) = up.least_pair();
        let c = up.design().cell().derived(2);
        self.offer(
            c,
            cost,
            Rule::Derived2 {
                upload: u,
                first,
                second,
            },
        );
    }
}
