ghost use Rattle.std.specs.Prelude.{◌≡◌, ◌≢◌, ◌↔◌, ◌-◌, ◌<◌, ◌≤◌, false, true, IfNone, IfOk, IfSome, IsSome, IsTrue};
ghost use Rattle.std.specs.Prelude.{OnErr, OnOk, Some, length, slice_get};
ghost use Rattle.std.specs.List.{Contains};
ghost use Rattle.lj_relax.specs.Steps.{Publishes};
ghost use Rattle.lj_relax.specs.Tickets.{TicketLists};
ghost use Rattle.lj_table.specs.Keeping.{PublishesKeeping};
ghost use Rattle.lj_table.specs.Starting.{IsFresh};
ghost use Rattle.lj_table.specs.Tables.{Extends, Fits, IsAtRest, IsOfFirst};
ghost use Rattle.lj_shared.specs.States.{AreAmong, IsFirstLacking, IsPut, IsUnfit, LacksBetween};
ghost use Rattle.lj_shared.specs.States.{TakesNext};

use lj_base::{Frame, Memory};
use lj_deriv::MAX_ARENA_UPLOADS;
use lj_relax::{Proposal, Ticket};
use lj_table::{Claimed, Outcome, Table};
use lj_upload::Accepted;
use std::alloc::Global;

/// A table, and the number of clients that run, each of which may still have an upload for it.
#[derive(Drop)]
pub struct State {
    pub table: Table,
    pub clients: u64,
}

/// What there is for a worker: a cell that has been claimed for it; none, but a client runs that may bring one; or none
/// for good.
#[derive(Clone, Copy, Debug, PartialEq, Eq)]
pub enum Next {
    Claimed,
    Waits,
    Ended,
}

impl State {
    /// Puts a fresh table of the frame in the table's place, and returns true, where the table's frame is another one
    /// or the table holds as many uploads as it can.
    pub fn ready(&mut self, alloc: Global, frame: Frame) -> Result<bool, Memory>
        ensures unfit { IfOk result (λ fresh. IsTrue fresh ↔ IsUnfit frame self.old.table) }
        ensures fresh { IfOk result (λ fresh. fresh ≡ true → IsFresh frame self.new.table) }
        ensures same { IfOk result (λ fresh. fresh ≡ false → self.new ≡ self.old) }
        ensures frame { OnOk result (self.new.table.arena.frame ≡ frame) }
        ensures room { OnOk result (length self.new.table.arena.uploads < MAX_ARENA_UPLOADS) }
        ensures clients { self.new.clients ≡ self.old.clients }
        ensures err { OnErr result (self.new ≡ self.old) }
    {
        if !self.is_unfit(frame) {
            return Ok(false);
        }
        self.table = Table::start(alloc, frame)?;
        Ok(true)
    }

    // Whether the table's frame is another one, or the table holds as many uploads as it can.
    fn is_unfit(&self, frame: Frame) -> bool
        ensures yes { result ≡ true → IsUnfit frame self.now.table }
        ensures no { result ≡ false
            → (self.now.table.arena.frame ≡ frame) × (length self.now.table.arena.uploads < MAX_ARENA_UPLOADS) }
    {
        if self.table.frame() == frame {
            self.table.accepted().len() as u64 >= MAX_ARENA_UPLOADS
        } else {
            true
        }
    }

    /// Claims a cell into the ticket, or says why there is none. It takes no memory.
    pub fn next(&mut self, ticket: &mut Ticket) -> Next
        requires frame { ticket.old.frame ≡ self.old.table.arena.frame }
        requires room { length self.old.table.arena.uploads ≤ ticket.old.room }
        ensures next { TakesNext self.old ticket.old result self.new ticket.new }
        ensures rest { result ≢ Next.Claimed → IsAtRest self.new.table }
        ensures arena { self.new.table.arena ≡ self.old.table.arena }
        ensures frame { ticket.new.frame ≡ ticket.old.frame }
        ensures fits { (q : TicketLists) → Fits self.old.table.arena q → Fits self.new.table.arena q }
    {
        match self.table.claim(ticket) {
            Claimed::Cell { cell: _ } => Next::Claimed,
            Claimed::NoneOpen => self.idle(),
        }
    }

    /// `next`, where the ticket has the table's lists already.
    pub fn next_current(&mut self, ticket: &mut Ticket) -> Next
        requires frame { ticket.old.frame ≡ self.old.table.arena.frame }
        requires room { length self.old.table.arena.uploads ≤ ticket.old.room }
        requires bounds { ticket.old.bounds ≡ self.old.table.bounds }
        requires nodes { ticket.old.nodes ≡ self.old.table.nodes }
        ensures next { TakesNext self.old ticket.old result self.new ticket.new }
        ensures rest { result ≢ Next.Claimed → IsAtRest self.new.table }
        ensures arena { self.new.table.arena ≡ self.old.table.arena }
        ensures frame { ticket.new.frame ≡ ticket.old.frame }
        ensures latest { IsOfFirst self.new.table.arena (length self.new.table.arena.rules) ticket.new }
        ensures fits { (q : TicketLists) → Fits self.old.table.arena q → Fits self.new.table.arena q }
    {
        match self.table.claim_current(ticket) {
            Claimed::Cell { cell: _ } => Next::Claimed,
            Claimed::NoneOpen => self.idle(),
        }
    }

    // What there is while no cell is open.
    fn idle(&self) -> Next
        ensures waits { result ≡ Next.Waits → 0 < self.now.clients }
        ensures ended { result ≡ Next.Ended → self.now.clients ≡ 0 }
        ensures not_claimed { result ≢ Next.Claimed }
    {
        if self.clients > 0 {
            Next::Waits
        } else {
            Next::Ended
        }
    }

    /// Publishes what was found over a ticket, where the ticket fits the table; else nothing changes, and there is no
    /// outcome.
    pub fn put(&mut self, p: &Proposal) -> Result<Option<Outcome>, Memory>
        ensures fits { IfOk result (λ o. IsSome o ↔ Fits self.old.table.arena p.now.ticket) }
        ensures put { IfOk result (λ o. IfSome o
            (λ outcome. IsPut Publishes self.old.table p.now outcome self.new.table)) }
        ensures none { IfOk result (λ o. IfNone o (self.new ≡ self.old)) }
        ensures clients { self.new.clients ≡ self.old.clients }
        ensures frame { self.new.table.arena.frame ≡ self.old.table.arena.frame }
        ensures uploads { self.new.table.arena.uploads ≡ self.old.table.arena.uploads }
        ensures err { OnErr result (self.new ≡ self.old) }
        ensures stay { (q : TicketLists) → Fits self.old.table.arena q → Fits self.new.table.arena q }
    {
        let Some(same) = self.table.fit(p.ticket()) else {
            return Ok(None);
        };
        self.table.reserve()?;
        Ok(Some(self.table.publish_fitting(p, same)))
    }

    /// `put`, where the ticket's lists are those that the table had when it had made so many nodes; but of the cells
    /// next to the published one, those that were closed may stay closed, where still nothing is cheaper there.
    pub fn put_known(&mut self, p: &Proposal, known: u64) -> Result<Option<Outcome>, Memory>
        requires known { IsOfFirst self.old.table.arena known p.now.ticket }
        ensures fits { IfOk result (λ o. IsSome o ↔ Fits self.old.table.arena p.now.ticket) }
        ensures put { IfOk result (λ o. IfSome o
            (λ outcome. IsPut PublishesKeeping self.old.table p.now outcome self.new.table)) }
        ensures none { IfOk result (λ o. IfNone o (self.new ≡ self.old)) }
        ensures clients { self.new.clients ≡ self.old.clients }
        ensures frame { self.new.table.arena.frame ≡ self.old.table.arena.frame }
        ensures uploads { self.new.table.arena.uploads ≡ self.old.table.arena.uploads }
        ensures err { OnErr result (self.new ≡ self.old) }
        ensures stay { (q : TicketLists) → Fits self.old.table.arena q → Fits self.new.table.arena q }
        ensures extends { Extends self.old.table.arena self.new.table.arena }
    {
        if !self.table.fits_known(p.ticket()) {
            return Ok(None);
        }
        self.table.reserve()?;
        Ok(Some(self.table.publish_keeping(p, known)))
    }

    /// The first place in `own` whose upload the table does not have. Cost: where the table has them in the order of
    /// `own`, a few steps for each of its uploads and one for each block of `own`; else up to as many for each one.
    pub fn lacks(&self, own: &[Accepted]) -> Option<u64>
        ensures some { IfSome result (IsFirstLacking own.now self.now.table.arena.uploads) }
        ensures none { IfNone result (AreAmong own.now self.now.table.arena.uploads) }
    {
        let uploads = self.table.accepted();
        let mut from = 0;
        for i in 0..own.len() {
            match place_of(uploads, &own[i], from) {
                Some(place) => from = place + 1,
                None => return Some(i as u64),
            }
        }
        None
    }

    /// One client less runs, where one does.
    pub fn leave(&mut self)
        ensures clients { self.new.clients ≡ self.old.clients - 1 }
        ensures table { self.new.table ≡ self.old.table }
    {
        self.clients = self.clients.saturating_sub(1);
    }
}

// A place of the upload in the list, which is looked for from a place on first.
fn place_of(uploads: &[Accepted], up: &Accepted, from: usize) -> Option<usize>
    requires { from ≤ length uploads.now }
    ensures some { IfSome result (λ place. slice_get uploads.now place ≡ Some up.now) }
    ensures none { IfNone result (Contains uploads.now up.now → ⊥) }
{
    match place_between(uploads, up, from, uploads.len()) {
        Some(place) => Some(place),
        None => place_between(uploads, up, 0, from),
    }
}

// The first place of the upload from one place up to another.
fn place_between(uploads: &[Accepted], up: &Accepted, from: usize, to: usize) -> Option<usize>
    requires { to ≤ length uploads.now }
    ensures some { IfSome result (λ place. slice_get uploads.now place ≡ Some up.now) }
    ensures none { IfNone result (LacksBetween uploads.now up.now from to) }
{
    for place in from..to {
        if uploads[place].same(up) {
            return Some(place);
        }
    }
    None
}
