ghost use Rattle.std.specs.Prelude.{◌≡◌, ◌↔◌, ◌-◌, ◌<◌, ◌≤◌, [], true, IfNone, IfOk, IfSome, IsSome, OnErr, OnOk};
ghost use Rattle.std.specs.Prelude.{length};
ghost use Rattle.std.specs.List.{AllByRecursion};
ghost use Rattle.lj_base.specs.Frames.{InFrame};
ghost use Rattle.lj_board.specs.Seen.{NoneRises, seen_of};
ghost use Rattle.lj_relax.specs.Steps.{Accepts};
ghost use Rattle.lj_table.specs.Keeping.{PublishesKeeping};
ghost use Rattle.lj_table.specs.Tables.{Fits, IsOfFirst, state_of};
ghost use Rattle.lj_shared.specs.Changes.{AreChangesOf, up_to_date};
ghost use Rattle.lj_shared.specs.Holding.{HasMoreRoom, IsFound, IsSettled, IsShown, IsShownPlan};
ghost use Rattle.lj_shared.specs.Holding.{SettlesCurrent, Works};
ghost use Rattle.lj_shared.specs.Passes.{AtMostOffers};
ghost use Rattle.lj_shared.specs.States.{IsPut};

use crate::held::{Held, Settling, Work};
use crate::known::{KnownProposal, KnownTicket};
use lj_base::{Cell, Memory};
use lj_board::{Board, Pass, Setting};
use lj_deriv::Plan;
use lj_history::History;
use lj_relax::Ticket;
use lj_table::{Outcome, Table};
use lj_upload::Accepted;
use std::alloc::Global;
use std::marker::{Model, PhantomData};

/// What lies behind the lock: the state, and the history of its table, which has a change for each of its nodes.
#[derive(Drop)]
pub struct Locked<J: Setting> {
    held: Held<J>,
    history: History,
}

impl<J: Setting> Model for Locked<J> {
    ghost use Rattle.std.specs.Prelude.{◌≡◌, length};
    ghost use Rattle.lj_shared.specs.Changes.{AreChangesOf};
    ghost use Rattle.lj_shared.specs.declared.state.State.{State};

    ghost Value = { State };

    ghost view = { λ l. l.held };

    ghost invariant = { λ l. (l.history.history ≡ J.history)
        × AreChangesOf l.held.table.arena (length l.held.table.arena.rules) l.history.changes };
}

impl<J: Setting> Locked<J> {
    pub fn start(held: Held<J>, mut history: History) -> Locked<J>
        requires named { history.history ≡ J.history }
        requires new { history.changes ≡ [] }
        ensures { result ≡ held }
    {
        record_from(held.table(), &mut history, 0);
        Locked { held, history }
    }

    pub fn into_table(self) -> Table
        ensures table { result ≡ self.table }
        ensures frame { result.arena.frame ≡ J.frame }
        ensures allowed { AllByRecursion J.allowed result.arena.uploads }
    {
        let Locked { held, history: _ } = self;
        held.into_table()
    }

    /// One client less runs, where one does.
    pub fn leave(&mut self)
        ensures clients { self.new.clients ≡ self.old.clients - 1 }
        ensures table { self.new.table ≡ self.old.table }
    {
        self.held.leave();
    }

    /// The table accepts an upload, and the words of the cells of its rules without children fall to the table's
    /// bounds.
    pub fn accept(&mut self, board: &Board<J>, pass: &mut Pass, up: Accepted) -> Result<(), Memory>
        requires pass { pass.old.board ≡ board.now }
        requires inside { InFrame J.frame up.cell }
        requires allowed { J.allowed up }
        ensures step { OnOk result (Accepts (state_of self.old.table) up (state_of self.new.table)) }
        ensures clients { self.new.clients ≡ self.old.clients }
        ensures err { OnErr result (HasMoreRoom self.old self.new) }
        ensures offers { OnOk result (AtMostOffers up pass.new) }
        ensures falls { NoneRises pass.old pass.new }
    {
        let from = self.held.table().node_count();
        self.held.accept(board, pass, up)?;
        record_from(self.held.table(), &mut self.history, from);
        Ok(())
    }

    /// The table's plan of a cell, where its bound is at most what the pass has seen; the word falls to its cost.
    pub fn plan(
        &self,
        alloc: Global,
        board: &Board<J>,
        pass: &mut Pass,
        c: Cell,
        seen: u64,
    ) -> Result<Option<Plan>, Memory>
        requires pass { pass.old.board ≡ board.now }
        requires inside { InFrame J.frame c }
        requires seen { seen ≡ seen_of pass.old c }
        ensures plan { IfOk result (λ o. IfSome o (IsShownPlan J.frame J.allowed c pass.old pass.new)) }
        ensures above { IfOk result (λ o. IfNone o (seen < (state_of self.now.table).bounds c)) }
        ensures none { IfOk result (λ o. IfNone o (pass.new ≡ pass.old)) }
        ensures err { OnErr result (pass.new ≡ pass.old) }
        ensures falls { NoneRises pass.old pass.new }
    {
        self.held.plan(alloc, board, pass, c, seen)
    }

    /// Gives a ticket the table's lists.
    pub fn ticket(&mut self, mut ticket: Ticket) -> KnownTicket<J>
        requires { ticket.frame ≡ J.frame }
        ensures ticket { result ≡ up_to_date self.old.table ticket }
        ensures same { self.new ≡ self.old }
    {
        self.held.table().copy_into(&mut ticket);
        self.tie(ticket)
    }

    /// What there is for a worker: a cell is claimed into the ticket, or there is none. Where there is none for good,
    /// each word falls to the table's bound.
    pub fn work(
        &mut self,
        board: &Board<J>,
        pass: &mut Pass,
        known: KnownTicket<J>,
    ) -> (Work, KnownTicket<J>)
        requires pass { pass.old.board ≡ board.now }
        ensures works { Works self.old (up_to_date self.old.table known) result.0 self.new result.1 }
        ensures found { IsFound J.frame pass.new result.0 }
        ensures falls { NoneRises pass.old pass.new }
    {
        let mut ticket = self.untie(known);
        let found = self.held.work(board, pass, &mut ticket);
        (found, self.tie(ticket))
    }

    /// What there is for a settling client: a cell is claimed into the ticket; or the table accepts a copy of the
    /// first upload of `own` that it lacks; or each word falls to the table's bound.
    pub fn settle(
        &mut self,
        alloc: Global,
        board: &Board<J>,
        pass: &mut Pass,
        known: KnownTicket<J>,
        own: &[Accepted],
    ) -> Result<(Settling, KnownTicket<J>), Memory>
        requires pass { pass.old.board ≡ board.now }
        requires inside { AllByRecursion (λ u. InFrame J.frame u.cell) own.now }
        requires allowed { AllByRecursion J.allowed own.now }
        ensures settles { IfOk result (λ r. SettlesCurrent own.now self.old known r.0 self.new r.1) }
        ensures err { OnErr result (HasMoreRoom self.old self.new) }
        ensures settled { IfOk result (λ r. IsSettled J.frame own.now pass.new r.0) }
        ensures falls { NoneRises pass.old pass.new }
    {
        let mut ticket = self.untie(known);
        let from = self.held.table().node_count();
        let found = self.held.settle(alloc, board, pass, &mut ticket, own)?;
        record_from(self.held.table(), &mut self.history, from);
        if let Settling::Accepted = found {
            self.held.table().catch_up(&mut ticket, from);
        }
        Ok((found, self.tie(ticket)))
    }

    /// Publishes what was found over a ticket, where the ticket fits; else nothing changes, and there is no outcome.
    /// Where the bound has fallen, so does the word. The ticket comes back with the table's lists.
    pub fn put(
        &mut self,
        board: &Board<J>,
        pass: &mut Pass,
        p: KnownProposal<J>,
    ) -> Result<(Option<Outcome>, KnownTicket<J>), Memory>
        requires pass { pass.old.board ≡ board.now }
        ensures fits { IfOk result (λ r. IsSome r.0 ↔ Fits self.old.table.arena p.ticket) }
        ensures put { IfOk result (λ r. IfSome r.0
            (λ outcome. IsPut PublishesKeeping self.old.table p outcome self.new.table)) }
        ensures none { IfOk result (λ r. IfNone r.0 (self.new ≡ self.old)) }
        ensures ticket { IfOk result (λ r. r.1 ≡ up_to_date self.new.table p.ticket) }
        ensures clients { self.new.clients ≡ self.old.clients }
        ensures err { OnErr result (self.new ≡ self.old) }
        ensures shown { IfOk result (λ r. IfSome r.0 (λ outcome. outcome.lowered ≡ true
            → IsShown self.new.table pass.new p.ticket.cell)) }
        ensures falls { NoneRises pass.old pass.new }
    {
        let KnownProposal {
            proposal,
            nodes,
            reader,
            setting: _,
        } = p;
        self.history.take_back(reader);
        let from = self.held.table().node_count();
        let outcome = self.held.put(board, pass, &proposal, nodes)?;
        record_from(self.held.table(), &mut self.history, from);
        let mut ticket = proposal.into_ticket();
        self.held.table().catch_up(&mut ticket, nodes);
        Ok((outcome, self.tie(ticket)))
    }

    // A ticket that has the table's lists, with all changes so far.
    fn tie(&mut self, ticket: Ticket) -> KnownTicket<J>
        requires latest { IsOfFirst self.old.table.arena (length self.old.table.arena.rules) ticket }
        ensures ticket { result ≡ ticket }
        ensures same { self.new ≡ self.old }
    {
        KnownTicket {
            ticket,
            nodes: self.held.table().node_count(),
            reader: self.history.reader(),
            setting: PhantomData,
        }
    }

    // Brings a ticket up to date, whose changes are the first ones of the history.
    fn untie(&mut self, known: KnownTicket<J>) -> Ticket
        ensures lists { result ≡ up_to_date self.old.table known }
        ensures latest { IsOfFirst self.new.table.arena (length self.new.table.arena.rules) result }
        ensures frame { result.frame ≡ J.frame }
        ensures same { self.new ≡ self.old }
    {
        let KnownTicket {
            mut ticket,
            nodes,
            reader,
            setting: _,
        } = known;
        self.history.take_back(reader);
        self.held.table().catch_up(&mut ticket, nodes);
        ticket
    }
}

// Appends the changes of the table's nodes from one on.
fn record_from(table: &Table, history: &mut History, from: u64)
    requires changes { AreChangesOf table.now.arena from history.old.changes }
    requires few { from ≤ length table.now.arena.rules }
    ensures changes { AreChangesOf table.now.arena (length table.now.arena.rules) history.new.changes }
    ensures history { history.new.history ≡ history.old.history }
{
    for node in from..table.node_count() {
        history.append(table.node_cell(node), table.node_cost(node));
    }
}
