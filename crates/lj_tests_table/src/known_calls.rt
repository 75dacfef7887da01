//! The table's calls at tickets of which it is known when their lists were the table's.

ghost use Rattle.std.specs.Prelude.{IfOk};
ghost use Rattle.lj_table.specs.Tables.{IsOfFirst};
ghost use Rattle.lj_tests_table.specs.Current.{IsCurrent};

use crate::calls::node_at;
use lj_base::{Cell, Memory};
use lj_relax::{Proposal, Ticket};
use lj_table::{Claimed, Outcome, Table};
use std::alloc::Global;

/// A ticket with the table's lists, and with room for a row of each upload.
pub fn current(alloc: Global, table: &Table) -> Result<Ticket, Memory>
    ensures { IfOk result (IsCurrent table.now) }
{
    let mut ticket = Ticket::new(alloc, table.frame())?;
    ticket.reserve(table.accepted().len() as u64)?;
    table.copy_into(&mut ticket);
    Ok(ticket)
}

/// One claim; `None` where the ticket has too little room.
pub fn claim_current(table: &mut Table, ticket: &mut Ticket) -> Option<Claimed>
    requires { IsCurrent table.old ticket.old }
    ensures { IsCurrent table.new ticket.new }
{
    if ticket.room() >= table.accepted().len() as u64 {
        Some(table.claim_current(ticket))
    } else {
        None
    }
}

// Claims until the cell comes up, at most as often as there are cells.
fn claim_until(table: &mut Table, ticket: &mut Ticket, c: Cell)
    requires { IsCurrent table.old ticket.old }
    ensures { IsCurrent table.new ticket.new }
{
    for _ in 0..table.frame().size() {
        if claim_current(table, ticket) == Some(Claimed::Cell { cell: c }) {
            return;
        }
    }
}

/// A ticket of the cell with the table's lists, by claims until the cell comes up.
pub fn claimed_current(alloc: Global, table: &mut Table, c: Cell) -> Result<Ticket, Memory>
    ensures { IfOk result (IsCurrent table.new) }
{
    let mut ticket = current(alloc, table)?;
    claim_until(table, &mut ticket, c);
    Ok(ticket)
}

/// Publishes what was found over a ticket of the table's first nodes, where it fits.
pub fn put_known(
    table: &mut Table,
    proposal: &Proposal,
    nodes: u64,
) -> Result<Option<Outcome>, Memory>
    requires known { IsOfFirst table.old.arena nodes proposal.now.ticket }
    ensures known { IsOfFirst table.new.arena nodes proposal.now.ticket }
{
    table.reserve()?;
    if table.fits_known(proposal.ticket()) {
        Ok(Some(table.publish_keeping(proposal, nodes)))
    } else {
        Ok(None)
    }
}

/// Whether the ticket has the table's lists and no rows.
pub fn has_lists(table: &Table, ticket: &Ticket) -> bool {
    ticket.bounds() == table.bounds() && ticket.rows().is_empty() && has_nodes(table, ticket)
}

fn has_nodes(table: &Table, ticket: &Ticket) -> bool {
    let frame = table.frame();
    for place in 0..frame.size() {
        if !has_node(table, ticket, frame.cell(place)) {
            return false;
        }
    }
    true
}

fn has_node(table: &Table, ticket: &Ticket, c: Cell) -> bool {
    ticket.frame().has(c) && ticket.node(c) == node_at(table, c)
}

/// Whether these are the ticket's bounds of (4,3,2), (5,3,2), (6,3,2) and (7,3,2).
pub fn has_copies(ticket: &Ticket, bounds: [u64; 4]) -> bool {
    has_copy(ticket, Cell { v: 4, k: 3, t: 2 }, bounds[0])
        && has_copy(ticket, Cell { v: 5, k: 3, t: 2 }, bounds[1])
        && has_copy(ticket, Cell { v: 6, k: 3, t: 2 }, bounds[2])
        && has_copy(ticket, Cell { v: 7, k: 3, t: 2 }, bounds[3])
}

fn has_copy(ticket: &Ticket, c: Cell, bound: u64) -> bool {
    ticket.frame().has(c) && ticket.bound(c) == bound
}
