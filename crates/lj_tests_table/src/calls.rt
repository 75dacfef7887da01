//! The table's calls at cells, uploads and tickets of any frame.

ghost use Rattle.lj_table.specs.Tables.{Extends};

use lj_base::{Cell, Frame, Memory};
use lj_cover::Design;
use lj_deriv::MAX_ARENA_UPLOADS;
use lj_relax::{Proposal, Ticket, evaluate};
use lj_samples::upload;
use lj_table::{Claimed, Outcome, Table};
use lj_upload::Accepted;
use std::alloc::Global;

/// The frame with this greatest cell, of which the blocks have at least a point.
pub fn frame_of(top: Cell) -> Frame {
    Frame::new(Cell {
        v: top.v,
        k: top.k.max(1),
        t: top.t,
    })
}

/// A fresh table of the frame with this greatest cell.
pub fn start(alloc: Global, top: Cell) -> Result<Table, Memory> {
    Table::start(alloc, frame_of(top))
}

pub fn settle(alloc: Global, table: &mut Table) -> Result<(), Memory>
    ensures { Extends table.old.arena table.new.arena }
{
    table.settle(alloc)
}

/// The node of a cell, and 0 outside the frame.
pub fn node_at(table: &Table, c: Cell) -> u64 {
    if table.frame().has(c) {
        table.node(c)
    } else {
        0
    }
}

/// Whether the frame has the cell, and both its bound and its plan's cost are this number.
pub fn has_plan(alloc: Global, table: &Table, c: Cell, cost: u64) -> Result<bool, Memory> {
    if table.frame().has(c) {
        let plan = table.plan(alloc, c)?;
        Ok(plan.cost() == cost && table.bound(c) == cost)
    } else {
        Ok(false)
    }
}

/// Whether the cell is in the frame and open.
pub fn is_open(table: &Table, c: Cell) -> bool {
    table.frame().has(c) && table.is_pending(c)
}

/// Accepts an upload of a design of few blocks, where the frame has its cell; whether it has accepted it.
pub fn accept(alloc: Global, table: &mut Table, design: Design) -> Result<bool, Memory>
    ensures { Extends table.old.arena table.new.arena }
{
    if design.blocks().len() <= 100 {
        let up = upload(alloc, 1, design)?;
        accept_upload(table, up)
    } else {
        Ok(false)
    }
}

fn accept_upload(table: &mut Table, up: Accepted) -> Result<bool, Memory>
    ensures { Extends table.old.arena table.new.arena }
{
    let inside = table.frame().has(up.design().cell());
    if inside && (table.accepted().len() as u64) < MAX_ARENA_UPLOADS {
        table.accept(up)?;
        return Ok(true);
    }
    Ok(false)
}

/// One claim; whether it is of the cell. Nothing is claimed where the ticket is of another frame, or has too little
/// room.
pub fn claims(table: &mut Table, ticket: &mut Ticket, c: Cell) -> bool {
    claim(table, ticket) == Some(Claimed::Cell { cell: c })
}

/// One claim; whether it was made, and no cell was open.
pub fn claims_none(table: &mut Table, ticket: &mut Ticket) -> bool {
    claim(table, ticket) == Some(Claimed::NoneOpen)
}

// None where the ticket may not be used.
fn claim(table: &mut Table, ticket: &mut Ticket) -> Option<Claimed> {
    if ticket.frame() == table.frame() && ticket.room() >= table.accepted().len() as u64 {
        Some(table.claim(ticket))
    } else {
        None
    }
}

/// What is found over a new ticket, by claims until the cell comes up.
pub fn claimed(alloc: Global, table: &mut Table, c: Cell) -> Result<Proposal, Memory> {
    let mut ticket = Ticket::new(alloc, table.frame())?;
    ticket.reserve(table.accepted().len() as u64)?;
    claim_until(table, &mut ticket, c);
    Ok(evaluate(ticket))
}

// Claims until the cell comes up, at most as often as there are cells.
fn claim_until(table: &mut Table, ticket: &mut Ticket, c: Cell) {
    for _ in 0..table.frame().size() {
        if claims(table, ticket, c) {
            return;
        }
    }
}

/// Publishes, where the ticket fits; whether it did, with this outcome.
pub fn publishes(
    table: &mut Table,
    proposal: &Proposal,
    lowered: bool,
    agreed: bool,
) -> Result<bool, Memory> {
    table.reserve()?;
    if table.fits(proposal.ticket()) {
        Ok(table.publish(proposal) == Outcome { lowered, agreed })
    } else {
        Ok(false)
    }
}

/// Whether the ticket fits a fresh table of the frame with this greatest cell.
pub fn fits_fresh(alloc: Global, top: Cell, ticket: &Ticket) -> Result<bool, Memory> {
    let table = start(alloc, top)?;
    Ok(table.fits(ticket))
}

/// The bounds of the frame's cells, in index order.
pub fn all_bounds(alloc: Global, table: &Table) -> Result<Vec<u64>, Memory> {
    Ok(table.bounds().to_vec(alloc)?)
}

/// Whether these are the bounds of (4,3,2), (5,3,2), (6,3,2) and (7,3,2).
pub fn has_bounds(table: &Table, bounds: [u64; 4]) -> bool {
    has_bound(table, Cell { v: 4, k: 3, t: 2 }, bounds[0])
        && has_bound(table, Cell { v: 5, k: 3, t: 2 }, bounds[1])
        && has_bound(table, Cell { v: 6, k: 3, t: 2 }, bounds[2])
        && has_bound(table, Cell { v: 7, k: 3, t: 2 }, bounds[3])
}

/// Whether the frame has the cell, and this is its bound.
pub fn has_bound(table: &Table, c: Cell, bound: u64) -> bool {
    table.frame().has(c) && table.bound(c) == bound
}
