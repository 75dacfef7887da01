ghost use Rattle.std.specs.Prelude.{◌≡◌, ◌≢◌, ◌↔◌, ◌+◌, ◌-◌, ◌<◌, ◌≤◌, [], IfNone, IfOk, IfSome, IsSome, IsTrue};
ghost use Rattle.std.specs.Prelude.{OnErr, OnOk, false, true, length, min};
ghost use Rattle.std.specs.List.{AllByRecursion};
ghost use Rattle.lj_base.specs.Frames.{InFrame};
ghost use Rattle.lj_board.specs.Seen.{NoneRises, saw, seen_of};
ghost use Rattle.lj_cover.specs.Uses.{DerivableBy};
ghost use Rattle.lj_relax.specs.Steps.{Accepts};
ghost use Rattle.lj_table.specs.Keeping.{PublishesKeeping};
ghost use Rattle.lj_table.specs.Tables.{Extends, Fits, IsAtRest, IsOfFirst, state_of};
ghost use Rattle.lj_shared.specs.Holding.{AreShown, HasMoreRoom, IsFound, IsSettled, IsShown, IsShownPlan};
ghost use Rattle.lj_shared.specs.Holding.{Closes, Settles, Works, derived_cell};
ghost use Rattle.lj_shared.specs.Passes.{AtMostEach, AtMostOffers};
ghost use Rattle.lj_shared.specs.States.{AreAmong, IsPut};

use crate::state::{Next, State};
use lj_base::{Cell, Memory};
use lj_board::{Board, Pass, Setting};
use lj_cover::laws::derivations_stay_inside;
use lj_deriv::{MAX_ARENA_UPLOADS, Plan};
use lj_relax::laws::rest_is_least;
use lj_relax::{Proposal, Ticket};
use lj_table::{Outcome, Table};
use lj_upload::Accepted;
use std::alloc::Global;
use std::marker::{Model, PhantomData};

/// What a worker finds under the lock.
#[derive(Clone, Copy)]
pub enum Work {
    /// The ticket has room for too few rows.
    NeedsRoom { rows: u64 },
    Found { next: Next },
}

/// What a settling client finds under the lock.
#[derive(Clone, Copy)]
pub enum Settling {
    /// The ticket has room for too few rows.
    NeedsRoom { rows: u64 },
    Claimed,
    /// The table now has an upload that it lacked.
    Accepted,
    Settled,
}

/// The state behind the lock. Its table is of the run's frame and has allowed uploads alone.
#[derive(Drop)]
pub struct Held<J: Setting> {
    state: State,
    setting: PhantomData<J>,
}

impl<J: Setting> Model for Held<J> {
    ghost use Rattle.lj_shared.specs.Holding.{IsAllowedTable};
    ghost use Rattle.lj_shared.specs.declared.state.State.{State};

    ghost Value = { State };

    ghost view = { λ h. h.state };

    ghost invariant = { λ h. IsAllowedTable J.frame J.allowed h.state.table };
}

impl<J: Setting> Held<J> {
    pub fn start(state: State) -> Held<J>
        requires frame { state.table.arena.frame ≡ J.frame }
        requires uploads { state.table.arena.uploads ≡ [] }
        ensures { result ≡ state }
    {
        Held {
            state,
            setting: PhantomData,
        }
    }

    pub fn into_table(self) -> Table
        ensures table { result ≡ self.table }
        ensures frame { result.arena.frame ≡ J.frame }
        ensures allowed { AllByRecursion J.allowed result.arena.uploads }
    {
        let Held { state, setting: _ } = self;
        let State { table, clients: _ } = state;
        table
    }

    pub fn table(&self) -> &Table
        ensures table { result.now ≡ self.now.table }
        ensures frame { result.now.arena.frame ≡ J.frame }
    {
        &self.state.table
    }

    /// One client less runs, where one does.
    pub fn leave(&mut self)
        ensures clients { self.new.clients ≡ self.old.clients - 1 }
        ensures table { self.new.table ≡ self.old.table }
    {
        self.state.leave();
    }

    // The table's bound of a cell.
    fn bound(&self, c: Cell) -> u64
        requires { InFrame J.frame c }
        ensures bound { result ≡ (state_of self.now.table).bounds c }
        ensures derivable { DerivableBy J.frame J.allowed c result }
    {
        self.state.table.bound(c)
    }

    // Lowers the word of a cell to the table's bound.
    fn show(&self, board: &Board<J>, pass: &mut Pass, c: Cell)
        requires pass { pass.old.board ≡ board.now }
        requires inside { InFrame J.frame c }
        ensures seen { pass.new ≡ saw pass.old c (min (seen_of pass.old c) ((state_of self.now.table).bounds c)) }
        ensures shown { IsShown self.now.table pass.new c }
        ensures falls { NoneRises pass.old pass.new }
    {
        pass.lower(board, c, self.bound(c));
    }

    // Lowers the words of a cell, and of the cells that are derived from it at a point and at two points, to the
    // table's bounds.
    fn show_derived(&self, board: &Board<J>, pass: &mut Pass, c: Cell)
        requires pass { pass.old.board ≡ board.now }
        requires inside { InFrame J.frame c }
        ensures shown { AreShown self.now.table pass.new c }
        ensures falls { NoneRises pass.old pass.new }
    {
        self.show(board, pass, c);
        self.show_at(board, pass, c, 1);
        self.show_at(board, pass, c, 2);
    }

    // Lowers the word of the cell that is derived at n points, where there is one.
    fn show_at(&self, board: &Board<J>, pass: &mut Pass, c: Cell, n: u8)
        requires pass { pass.old.board ≡ board.now }
        requires inside { InFrame J.frame c }
        requires few { n < 255 }
        ensures shown { n ≤ c.t → n + 1 ≤ c.v → IsShown self.now.table pass.new (derived_cell c n) }
        ensures falls { NoneRises pass.old pass.new }
    {
        if is_derivable(c, n) {
            self.show(board, pass, c.derived(n));
        }
    }

    // Lowers each word to the bound of a table at rest. Cost: an atomic minimum for each cell of the frame.
    fn show_least(&self, board: &Board<J>, pass: &mut Pass)
        requires pass { pass.old.board ≡ board.now }
        requires rest { IsAtRest self.now.table }
        ensures least { (own : _) → AreAmong own self.now.table.arena.uploads → AtMostEach J.frame own pass.new }
        ensures falls { NoneRises pass.old pass.new }
    {
        rest_is_least();
        derivations_stay_inside();
        pass.lower_all(board, self.state.table.bounds());
    }

    /// The table accepts an upload, and the words of the cells of its rules without children fall to the table's
    /// bounds. A table that can hold no further upload counts as out of memory.
    pub fn accept(&mut self, board: &Board<J>, pass: &mut Pass, up: Accepted) -> Result<(), Memory>
        requires pass { pass.old.board ≡ board.now }
        requires inside { InFrame J.frame up.cell }
        requires allowed { J.allowed up }
        ensures step { OnOk result (Accepts (state_of self.old.table) up (state_of self.new.table)) }
        ensures clients { self.new.clients ≡ self.old.clients }
        ensures err { OnErr result (HasMoreRoom self.old self.new) }
        ensures offers { OnOk result (AtMostOffers up pass.new) }
        ensures extends { Extends self.old.table.arena self.new.table.arena }
        ensures falls { NoneRises pass.old pass.new }
    {
        if self.state.table.accepted().len() as u64 >= MAX_ARENA_UPLOADS {
            return Err(Memory);
        }
        let cell = up.design().cell();
        self.state.table.accept(up)?;
        self.show_derived(board, pass, cell);
        Ok(())
    }

    /// What there is for a worker: a cell is claimed into the ticket, or there is none. Where there is none for good,
    /// each word falls to the table's bound.
    pub fn work(&mut self, board: &Board<J>, pass: &mut Pass, ticket: &mut Ticket) -> Work
        requires pass { pass.old.board ≡ board.now }
        requires ticket { ticket.old.frame ≡ J.frame }
        requires bounds { ticket.old.bounds ≡ self.old.table.bounds }
        requires nodes { ticket.old.nodes ≡ self.old.table.nodes }
        requires latest { IsOfFirst self.old.table.arena (length self.old.table.arena.rules) ticket.old }
        ensures works { Works self.old ticket.old result self.new ticket.new }
        ensures found { IsFound J.frame pass.new result }
        ensures ticket { ticket.new.frame ≡ J.frame }
        ensures arena { self.new.table.arena ≡ self.old.table.arena }
        ensures latest { IsOfFirst self.new.table.arena (length self.new.table.arena.rules) ticket.new }
        ensures falls { NoneRises pass.old pass.new }
    {
        let rows = self.state.table.accepted().len() as u64;
        if ticket.room() < rows {
            return Work::NeedsRoom { rows };
        }
        match self.state.next_current(ticket) {
            Next::Claimed => Work::Found {
                next: Next::Claimed,
            },
            Next::Waits => Work::Found { next: Next::Waits },
            Next::Ended => {
                self.show_least(board, pass);
                Work::Found { next: Next::Ended }
            }
        }
    }

    /// What there is for a settling client: a cell is claimed into the ticket; or the table accepts a copy of the
    /// first upload of `own` that it lacks; or each word falls to the table's bound.
    pub fn settle(
        &mut self,
        alloc: Global,
        board: &Board<J>,
        pass: &mut Pass,
        ticket: &mut Ticket,
        own: &[Accepted],
    ) -> Result<Settling, Memory>
        requires pass { pass.old.board ≡ board.now }
        requires ticket { ticket.old.frame ≡ J.frame }
        requires bounds { ticket.old.bounds ≡ self.old.table.bounds }
        requires nodes { ticket.old.nodes ≡ self.old.table.nodes }
        requires latest { IsOfFirst self.old.table.arena (length self.old.table.arena.rules) ticket.old }
        requires inside { AllByRecursion (λ u. InFrame J.frame u.cell) own.now }
        requires allowed { AllByRecursion J.allowed own.now }
        ensures settles { IfOk result (λ found. Settles own.now self.old ticket.old found self.new ticket.new) }
        ensures err { OnErr result (HasMoreRoom self.old self.new) }
        ensures settled { IfOk result (IsSettled J.frame own.now pass.new) }
        ensures ticket { ticket.new.frame ≡ J.frame }
        ensures extends { Extends self.old.table.arena self.new.table.arena }
        ensures known { IsOfFirst self.new.table.arena (length self.old.table.arena.rules) ticket.new }
        ensures latest { IfOk result (λ found. found ≢ Settling.Accepted
            → length self.new.table.arena.rules ≡ length self.old.table.arena.rules) }
        ensures falls { NoneRises pass.old pass.new }
    {
        let rows = self.state.table.accepted().len() as u64;
        if ticket.room() < rows {
            return Ok(Settling::NeedsRoom { rows });
        }
        match self.state.next_current(ticket) {
            Next::Claimed => Ok(Settling::Claimed),
            Next::Waits | Next::Ended => self.close(alloc, board, pass, own),
        }
    }

    // What there is for a settling client while no cell is open.
    fn close(
        &mut self,
        alloc: Global,
        board: &Board<J>,
        pass: &mut Pass,
        own: &[Accepted],
    ) -> Result<Settling, Memory>
        requires pass { pass.old.board ≡ board.now }
        requires rest { IsAtRest self.old.table }
        requires inside { AllByRecursion (λ u. InFrame J.frame u.cell) own.now }
        requires allowed { AllByRecursion J.allowed own.now }
        ensures closes { IfOk result (Closes own.now self.old self.new) }
        ensures err { OnErr result (HasMoreRoom self.old self.new) }
        ensures extends { Extends self.old.table.arena self.new.table.arena }
        ensures settled { IfOk result (IsSettled J.frame own.now pass.new) }
        ensures falls { NoneRises pass.old pass.new }
    {
        match self.state.lacks(own) {
            Some(i) => {
                self.bring(alloc, board, pass, &own[i as usize])?;
                Ok(Settling::Accepted)
            }
            None => {
                self.show_least(board, pass);
                Ok(Settling::Settled)
            }
        }
    }

    // The table accepts a copy of an upload.
    fn bring(
        &mut self,
        alloc: Global,
        board: &Board<J>,
        pass: &mut Pass,
        up: &Accepted,
    ) -> Result<(), Memory>
        requires pass { pass.old.board ≡ board.now }
        requires inside { InFrame J.frame up.now.cell }
        requires allowed { J.allowed up.now }
        ensures step { OnOk result (Accepts (state_of self.old.table) up.now (state_of self.new.table)) }
        ensures clients { self.new.clients ≡ self.old.clients }
        ensures err { OnErr result (HasMoreRoom self.old self.new) }
        ensures extends { Extends self.old.table.arena self.new.table.arena }
        ensures falls { NoneRises pass.old pass.new }
    {
        let copy = up.copy(alloc)?;
        self.accept(board, pass, copy)
    }

    /// Publishes what was found over a ticket, where the ticket fits; else nothing changes, and there is no outcome.
    /// Where the bound has fallen, so does the word. The ticket's lists are those that the table had when it had made
    /// so many nodes.
    pub fn put(
        &mut self,
        board: &Board<J>,
        pass: &mut Pass,
        p: &Proposal,
        known: u64,
    ) -> Result<Option<Outcome>, Memory>
        requires pass { pass.old.board ≡ board.now }
        requires ticket { p.now.ticket.frame ≡ J.frame }
        requires known { IsOfFirst self.old.table.arena known p.now.ticket }
        ensures fits { IfOk result (λ o. IsSome o ↔ Fits self.old.table.arena p.now.ticket) }
        ensures put { IfOk result (λ o. IfSome o
            (λ outcome. IsPut PublishesKeeping self.old.table p.now outcome self.new.table)) }
        ensures none { IfOk result (λ o. IfNone o (self.new ≡ self.old)) }
        ensures extends { Extends self.old.table.arena self.new.table.arena }
        ensures clients { self.new.clients ≡ self.old.clients }
        ensures err { OnErr result (self.new ≡ self.old) }
        ensures shown { IfOk result (λ o. IfSome o (λ outcome. outcome.lowered ≡ true
            → IsShown self.new.table pass.new p.now.ticket.cell)) }
        ensures falls { NoneRises pass.old pass.new }
    {
        let outcome = self.state.put_known(p, known)?;
        if is_lowered(outcome) {
            self.show(board, pass, p.ticket().cell());
        }
        Ok(outcome)
    }

    /// The table's plan of a cell, where its bound is at most what the pass has seen; the word falls to its cost.
    pub fn plan(
        &self,
        alloc: Global,
        board: &Board<J>,
        pass: &mut Pass,
        c: Cell,
        seen: u64,
    ) -> Result<Option<Plan>, Memory>
        requires pass { pass.old.board ≡ board.now }
        requires inside { InFrame J.frame c }
        requires seen { seen ≡ seen_of pass.old c }
        ensures plan { IfOk result (λ o. IfSome o (IsShownPlan J.frame J.allowed c pass.old pass.new)) }
        ensures above { IfOk result (λ o. IfNone o (seen < (state_of self.now.table).bounds c)) }
        ensures none { IfOk result (λ o. IfNone o (pass.new ≡ pass.old)) }
        ensures err { OnErr result (pass.new ≡ pass.old) }
        ensures falls { NoneRises pass.old pass.new }
    {
        if self.bound(c) > seen {
            return Ok(None);
        }
        let plan = self.state.table.plan(alloc, c)?;
        pass.lower(board, c, plan.cost());
        Ok(Some(plan))
    }
}

// Whether a cell is left where n points are taken away, also from each block and each set.
fn is_derivable(c: Cell, n: u8) -> bool
    requires { n < 255 }
    ensures { IsTrue result ↔ ((n ≤ c.t) × (n + 1 ≤ c.v)) }
{
    n <= c.t && n + 1 <= c.v
}

// Whether the bound has fallen.
fn is_lowered(outcome: Option<Outcome>) -> bool
    ensures some { IfSome outcome (λ o. result ≡ o.lowered) }
    ensures none { IfNone outcome (result ≡ false) }
{
    match outcome {
        Some(o) => o.lowered,
        None => false,
    }
}
