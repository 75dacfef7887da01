ghost use Rattle.std.specs.Prelude.{◌≡◌, ◌<◌, ◌≤◌, All, None, length, slice_index_or, slice_set};
ghost use Rattle.std.specs.Prelude.{IfOk, IfSome, OnOk};
ghost use Rattle.lj_core.specs.Replays.{AreReady, HasChanged, HasPublished, no_tickets};
ghost use Rattle.lj_core.specs.declared.events.Event.TheVariants.{Claim, Publish};
ghost use Rattle.lj_table.specs.Tables.{Fits};

use lj_base::{Frame, Memory};
use lj_relax::{Ticket, evaluate};
use lj_table::{Claimed, Table};
use std::alloc::Global;

/// How many workers there may be: one for each number of a `u8`.
pub const WORKERS: usize = 1 << 8;

/// A place for each worker, none of whom has a ticket.
pub fn empty_places(alloc: Global) -> Result<Vec<Option<Ticket>>, Memory>
    ensures { IfOk result (λ tickets. tickets.items ≡ no_tickets) }
{
    let mut tickets = Vec::new(alloc);
    for _ in 0..WORKERS {
        tickets.push(None)?;
    }
    Ok(tickets)
}

/// Fills the worker's ticket at the next open cell, or takes it away where no cell is open.
pub fn claim(
    alloc: Global,
    table: &mut Table,
    tickets: &mut Vec<Option<Ticket>>,
    worker: u8,
) -> Result<(), Memory>
    requires { AreReady table.old tickets.old.items }
    ensures { OnOk result
        (HasChanged table.old tickets.old.items (Claim worker) table.new tickets.new.items) }
{
    let frame = table.frame();
    let mut ticket = take_or_new(alloc, frame, tickets, worker)?;
    let rows = table.accepted().len() as u64;
    ticket.reserve(rows)?;
    claim_into(table, tickets, worker, ticket);
    Ok(())
}

/// Publishes what is found over the worker's ticket, where the worker has one.
pub fn publish(
    table: &mut Table,
    tickets: &mut Vec<Option<Ticket>>,
    worker: u8,
) -> Result<(), Memory>
    requires { AreReady table.old tickets.old.items }
    ensures { OnOk result
        (HasChanged table.old tickets.old.items (Publish worker) table.new tickets.new.items) }
{
    match take_held(tickets, worker) {
        Some(ticket) => publish_ticket(table, ticket),
        None => Ok(()),
    }
}

// Takes the worker's ticket away.
fn take_held(tickets: &mut Vec<Option<Ticket>>, worker: u8) -> Option<Ticket>
    requires { worker < length tickets.old.items }
    ensures held { result ≡ slice_index_or tickets.old.items worker None }
    ensures left { tickets.new.items ≡ slice_set tickets.old.items worker None }
{
    tickets[usize::from(worker)].take()
}

// What the worker has from now on.
fn put_held(tickets: &mut Vec<Option<Ticket>>, worker: u8, held: Option<Ticket>)
    requires { worker < length tickets.old.items }
    ensures { tickets.new.items ≡ slice_set tickets.old.items worker held }
{
    tickets[usize::from(worker)] = held;
}

// Takes the worker's ticket away, or makes one where the worker has none.
fn take_or_new(
    alloc: Global,
    frame: Frame,
    tickets: &mut Vec<Option<Ticket>>,
    worker: u8,
) -> Result<Ticket, Memory>
    requires place { worker < length tickets.old.items }
    requires frames { All (λ held. IfSome held (λ q. q.frame ≡ frame)) tickets.old.items }
    ensures frame { IfOk result (λ q. q.frame ≡ frame) }
    ensures left { tickets.new.items ≡ slice_set tickets.old.items worker None }
{
    match take_held(tickets, worker) {
        Some(ticket) => Ok(ticket),
        None => Ticket::new(alloc, frame),
    }
}

// Claims into the ticket, which the worker has afterwards, if a cell was open.
fn claim_into(table: &mut Table, tickets: &mut Vec<Option<Ticket>>, worker: u8, mut ticket: Ticket)
    requires ready { AreReady table.old tickets.old.items }
    requires frame { ticket.frame ≡ table.old.arena.frame }
    requires room { length table.old.arena.uploads ≤ ticket.room }
    ensures { HasChanged table.old tickets.old.items (Claim worker) table.new tickets.new.items }
{
    let _ = table.frame();
    match table.claim(&mut ticket) {
        Claimed::Cell { cell: _ } => put_held(tickets, worker, Some(ticket)),
        Claimed::NoneOpen => put_held(tickets, worker, None),
    }
}

// Evaluates the ticket and publishes what was found.
fn publish_ticket(table: &mut Table, ticket: Ticket) -> Result<(), Memory>
    requires { Fits table.old.arena ticket }
    ensures { OnOk result (HasPublished table.old ticket table.new) }
{
    table.reserve()?;
    let proposal = evaluate(ticket);
    let _ = proposal.cost();
    let _outcome = table.publish(&proposal);
    Ok(())
}
