use crate::calls::{
    accept, claimed, claims, claims_none, fits_fresh, frame_of, has_bound, has_plan, is_open,
    node_at, publishes, settle, start,
};
use lj_base::{Cell, Memory};
use lj_relax::{Proposal, Ticket};
use lj_samples::four_triples;
use lj_table::Table;
use std::alloc::Global;

const TRIPLES: Cell = Cell { v: 7, k: 3, t: 2 };

const OLD: Cell = Cell { v: 6, k: 3, t: 2 };

const CHILD: Cell = Cell { v: 4, k: 3, t: 2 };

// What is found at the cell before the table accepts the four triples.
fn found_before(alloc: Global, table: &mut Table) -> Result<Proposal, Memory> {
    let proposal = claimed(alloc, table, OLD)?;
    accept(alloc, table, four_triples(alloc)?)?;
    Ok(proposal)
}

#[test]
fn a_ticket_from_before_an_upload_lowers_its_cell_and_leaves_it_open(
    rt: HostRuntime,
) -> Result<(), Memory> {
    assert!(rt; publishes_an_old_ticket(rt.alloc())?);
    Ok(())
}

fn publishes_an_old_ticket(alloc: Global) -> Result<bool, Memory> {
    let mut table = start(alloc, TRIPLES)?;
    let proposal = found_before(alloc, &mut table)?;
    lowers_and_leaves_open(alloc, &mut table, &proposal)
}

// Whether the publication takes the bound from 15 to 8, and leaves the cell open; and whether it is 7 at rest.
fn lowers_and_leaves_open(
    alloc: Global,
    table: &mut Table,
    proposal: &Proposal,
) -> Result<bool, Memory> {
    let before = proposal.ticket().cell() == OLD && has_bound(table, OLD, 15);
    let published = publishes(table, proposal, true, false)?;
    let after = has_bound(table, OLD, 8) && is_open(table, OLD);
    settle(alloc, table)?;
    Ok(before && published && after && has_bound(table, OLD, 7))
}

#[test]
fn a_cell_that_was_published_and_stayed_open_is_claimed_next(
    rt: HostRuntime,
) -> Result<(), Memory> {
    assert!(rt; claims_what_stayed_open(rt.alloc())?);
    Ok(())
}

fn claims_what_stayed_open(alloc: Global) -> Result<bool, Memory> {
    let mut table = start(alloc, TRIPLES)?;
    let proposal = found_before(alloc, &mut table)?;
    Ok(publishes(&mut table, &proposal, true, false)? && is_claimed_next(alloc, &mut table)?)
}

// Whether the next claim is of the cell, and none is of any at rest.
fn is_claimed_next(alloc: Global, table: &mut Table) -> Result<bool, Memory> {
    let mut ticket = Ticket::new(alloc, table.frame())?;
    ticket.reserve(1)?;
    let next = claims(table, &mut ticket, OLD);
    settle(alloc, table)?;
    Ok(next && claims_none(table, &mut ticket))
}

#[test]
fn a_plan_costs_the_bound_after_a_child_has_fallen(rt: HostRuntime) -> Result<(), Memory> {
    assert!(rt; falls_below_a_plan(rt.alloc())?);
    Ok(())
}

fn falls_below_a_plan(alloc: Global) -> Result<bool, Memory> {
    let mut table = start(alloc, TRIPLES)?;
    Ok(child_falls(alloc, &mut table)? && keeps_its_plan(alloc, &mut table)?)
}

// Claims the child and then the cell, and publishes the cell and then the child; whether both fall, and the cell keeps
// its node.
fn child_falls(alloc: Global, table: &mut Table) -> Result<bool, Memory> {
    let low = claimed(alloc, table, CHILD)?;
    let high = claimed(alloc, table, TRIPLES)?;
    both_fall(table, &low, &high)
}

fn both_fall(table: &mut Table, low: &Proposal, high: &Proposal) -> Result<bool, Memory> {
    let high_fell = publishes(table, high, true, true)?;
    let node = node_at(table, TRIPLES);
    let low_fell = publishes(table, low, true, true)?;
    Ok(high_fell && low_fell && has_bound(table, CHILD, 3) && node_at(table, TRIPLES) == node)
}

// Whether bound and plan cost 13, and 9 at rest.
fn keeps_its_plan(alloc: Global, table: &mut Table) -> Result<bool, Memory> {
    let kept = has_plan(alloc, table, TRIPLES, 13)?;
    settle(alloc, table)?;
    Ok(kept && has_plan(alloc, table, TRIPLES, 9)?)
}

#[test]
fn a_ticket_of_other_numbers_or_another_frame_does_not_fit(rt: HostRuntime) -> Result<(), Memory> {
    assert!(rt; fits_one_frame(rt.alloc())?);
    assert!(rt; !fits_empty(rt.alloc())?);
    Ok(())
}

fn fits_one_frame(alloc: Global) -> Result<bool, Memory> {
    let mut table = start(alloc, TRIPLES)?;
    let proposal = claimed(alloc, &mut table, OLD)?;
    fits_its_frame(alloc, proposal.ticket())
}

// Whether the ticket fits a table of its frame, and none of another.
fn fits_its_frame(alloc: Global, ticket: &Ticket) -> Result<bool, Memory> {
    let own = fits_fresh(alloc, TRIPLES, ticket)?;
    let other = fits_fresh(alloc, Cell { v: 8, k: 3, t: 2 }, ticket)?;
    Ok(own && !other)
}

// Whether a ticket that was never filled fits.
fn fits_empty(alloc: Global) -> Result<bool, Memory> {
    let empty = Ticket::new(alloc, frame_of(TRIPLES))?;
    fits_fresh(alloc, TRIPLES, &empty)
}
