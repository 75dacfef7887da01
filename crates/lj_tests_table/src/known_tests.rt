ghost use Rattle.std.specs.Prelude.{IfOk, IfSome};
ghost use Rattle.lj_table.specs.Tables.{IsOfFirst};
ghost use Rattle.lj_tests_table.specs.Current.{IsCurrent};

use crate::calls::{accept, claimed, has_bound, has_bounds, is_open, publishes, settle, start};
use crate::known_calls::{
    claim_current, claimed_current, current, has_copies, has_lists, put_known,
};
use lj_base::{Cell, Memory};
use lj_relax::{Ticket, evaluate};
use lj_samples::four_triples;
use lj_table::{Claimed, Outcome, Table};
use std::alloc::Global;

const TRIPLES: Cell = Cell { v: 7, k: 3, t: 2 };

const OLD: Cell = Cell { v: 6, k: 3, t: 2 };

const FIVE: Cell = Cell { v: 5, k: 3, t: 2 };

const CHILD: Cell = Cell { v: 4, k: 3, t: 2 };

#[test]
fn a_table_is_copied_over_what_a_ticket_has(rt: HostRuntime) -> Result<(), Memory> {
    assert!(rt; copies_over(rt.alloc())?);
    Ok(())
}

fn copies_over(alloc: Global) -> Result<bool, Memory> {
    let mut table = start(alloc, TRIPLES)?;
    let accepted = accept(alloc, &mut table, four_triples(alloc)?)?;
    let mut ticket = claimed_current(alloc, &mut table, FIVE)?;
    let claimed = ticket.rows().len() == 1 && has_copies(&ticket, [6, 4, 15, 21]);
    settle(alloc, &mut table)?;
    table.copy_into(&mut ticket);
    let copied = has_lists(&table, &ticket) && has_copies(&ticket, [3, 4, 7, 9]);
    Ok(accepted && claimed && copied && ticket.cell() == FIVE)
}

#[test]
fn a_ticket_of_a_fresh_table_catches_up_with_a_settled_one(rt: HostRuntime) -> Result<(), Memory> {
    assert!(rt; catches_up(rt.alloc())?);
    Ok(())
}

fn catches_up(alloc: Global) -> Result<bool, Memory> {
    let mut table = start(alloc, TRIPLES)?;
    let mut ticket = claimed_current(alloc, &mut table, FIVE)?;
    let nodes = table.node_count();
    let fresh = nodes == 54 && has_copies(&ticket, [6, 10, 15, 21]);
    settle(alloc, &mut table)?;
    table.catch_up(&mut ticket, nodes);
    let caught = has_lists(&table, &ticket) && has_copies(&ticket, [3, 4, 7, 9]);
    Ok(fresh && caught && ticket.cell() == FIVE)
}

#[test]
fn cells_are_claimed_in_index_order_with_the_rows_of_now(rt: HostRuntime) -> Result<(), Memory> {
    assert!(rt; claims_in_order(rt.alloc())?);
    Ok(())
}

fn claims_in_order(alloc: Global) -> Result<bool, Memory> {
    let mut table = start(alloc, TRIPLES)?;
    let accepted = accept(alloc, &mut table, four_triples(alloc)?)?;
    let mut ticket = current(alloc, &table)?;
    let each = claims_each(&mut table, &mut ticket);
    let again = claim_current(&mut table, &mut ticket);
    settle(alloc, &mut table)?;
    table.copy_into(&mut ticket);
    let none = claim_current(&mut table, &mut ticket) == Some(Claimed::NoneOpen);
    let first = Cell { v: 1, k: 0, t: 0 };
    Ok(accepted && each && again == Some(Claimed::Cell { cell: first }) && none)
}

// Claims once for each cell of the frame; whether the cells came in index order.
fn claims_each(table: &mut Table, ticket: &mut Ticket) -> bool
    requires { IsCurrent table.old ticket.old }
    ensures { IsCurrent table.new ticket.new }
{
    let frame = table.frame();
    let mut each = true;
    for place in 0..frame.size() {
        each &= claims_next(table, ticket, frame.cell(place));
    }
    each
}

// Whether the next claim is of the cell, with the row of the four triples where they serve it.
fn claims_next(table: &mut Table, ticket: &mut Ticket, c: Cell) -> bool
    requires { IsCurrent table.old ticket.old }
    ensures { IsCurrent table.new ticket.new }
{
    let claimed = claim_current(table, ticket);
    let rows = if c.t == 2 && c.v <= 5 { 1 } else { 0 };
    claimed == Some(Claimed::Cell { cell: c }) && ticket.cell() == c && ticket.rows().len() == rows
}

#[test]
fn a_known_ticket_from_before_an_upload_lowers_its_cell_and_leaves_it_open(
    rt: HostRuntime,
) -> Result<(), Memory> {
    assert!(rt; publishes_an_old_ticket(rt.alloc())?);
    Ok(())
}

fn publishes_an_old_ticket(alloc: Global) -> Result<bool, Memory> {
    let mut table = start(alloc, TRIPLES)?;
    let ticket = claimed_current(alloc, &mut table, OLD)?;
    let before = ticket.cell() == OLD && has_copies(&ticket, [6, 10, 15, 21]);
    let nodes = table.node_count();
    let accepted = accept(alloc, &mut table, four_triples(alloc)?)?;
    let published = lowers_and_catches_up(&mut table, ticket, nodes)?;
    settle(alloc, &mut table)?;
    Ok(before && accepted && published && has_bound(&table, OLD, 7))
}

// Whether the publication takes the bound from 15 to 8, and leaves the cell open; and whether the ticket has then the
// table's lists.
fn lowers_and_catches_up(table: &mut Table, ticket: Ticket, nodes: u64) -> Result<bool, Memory>
    requires { IsOfFirst table.old.arena nodes ticket }
{
    let before = has_bounds(table, [6, 4, 15, 21]);
    let proposal = evaluate(ticket);
    let outcome = put_known(table, &proposal, nodes)?;
    let lowered = outcome == lowers(false) && has_bounds(table, [6, 4, 8, 21]);
    let mut ticket = proposal.into_ticket();
    table.catch_up(&mut ticket, nodes);
    let caught = has_lists(table, &ticket) && has_copies(&ticket, [6, 4, 8, 21]);
    Ok(before && lowered && caught && is_open(table, OLD))
}

fn lowers(agreed: bool) -> Option<Outcome> {
    Some(Outcome {
        lowered: true,
        agreed,
    })
}

#[test]
fn a_worker_takes_one_turn_for_each_cell(rt: HostRuntime) -> Result<(), Memory> {
    assert!(rt; works_to_rest(rt.alloc())?);
    Ok(())
}

fn works_to_rest(alloc: Global) -> Result<bool, Memory> {
    let mut table = start(alloc, TRIPLES)?;
    let ticket = current(alloc, &table)?;
    let turns = work(&mut table, ticket, 1000)?;
    Ok(turns == 54 && table.at_rest() && has_bounds(&table, [3, 4, 7, 9]))
}

#[test]
fn cells_next_to_a_lowered_one_stay_closed(rt: HostRuntime) -> Result<(), Memory> {
    assert!(rt; stay_closed(rt.alloc())?);
    assert!(rt; are_opened(rt.alloc())?);
    Ok(())
}

// Whether the cells up to (4,3,2) are closed after a turn at each of them.
fn stay_closed(alloc: Global) -> Result<bool, Memory> {
    let mut table = start(alloc, TRIPLES)?;
    let ticket = current(alloc, &table)?;
    let turns = work(&mut table, ticket, 27)?;
    let closed = !is_open(&table, CHILD) && !next_are_open(&table);
    Ok(turns == 27 && closed && has_bound(&table, CHILD, 3))
}

// Whether those next to (4,3,2) are open after a turn at each of the cells before it and a publication there that keeps
// none closed.
fn are_opened(alloc: Global) -> Result<bool, Memory> {
    let mut table = start(alloc, TRIPLES)?;
    let ticket = current(alloc, &table)?;
    let turns = work(&mut table, ticket, 26)?;
    let proposal = claimed(alloc, &mut table, CHILD)?;
    let published = publishes(&mut table, &proposal, true, true)?;
    let open = !is_open(&table, CHILD) && next_are_open(&table);
    Ok(turns == 26 && published && open && has_bound(&table, CHILD, 3))
}

// Whether (3,3,2) and (4,3,1) are open; false where only one of them is.
fn next_are_open(table: &Table) -> bool {
    is_open(table, Cell { v: 3, k: 3, t: 2 }) && is_open(table, Cell { v: 4, k: 3, t: 1 })
}

// The turns of one worker until no cell is open, but at most so many.
fn work(table: &mut Table, ticket: Ticket, most: u64) -> Result<u64, Memory>
    requires { IsCurrent table.old ticket }
{
    let mut ticket = ticket;
    for turns in 0..most {
        match turn(table, ticket)? {
            Some(back) => ticket = back,
            None => return Ok(turns),
        }
    }
    Ok(most)
}

// One turn, after which the ticket has the table's lists; `None` where no cell is open.
fn turn(table: &mut Table, ticket: Ticket) -> Result<Option<Ticket>, Memory>
    requires { IsCurrent table.old ticket }
    ensures { IfOk result (λ r. IfSome r (IsCurrent table.new)) }
{
    let mut ticket = ticket;
    match claim_current(table, &mut ticket) {
        Some(Claimed::Cell { cell: _ }) => Ok(Some(put_back(table, ticket)?)),
        _ => Ok(None),
    }
}

// Publishes what is found over the ticket, and brings it up to date.
fn put_back(table: &mut Table, ticket: Ticket) -> Result<Ticket, Memory>
    requires { IsCurrent table.old ticket }
    ensures { IfOk result (IsCurrent table.new) }
{
    let nodes = table.node_count();
    let proposal = evaluate(ticket);
    let _ = put_known(table, &proposal, nodes)?;
    let mut ticket = proposal.into_ticket();
    table.catch_up(&mut ticket, nodes);
    Ok(ticket)
}
