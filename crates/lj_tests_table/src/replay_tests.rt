use crate::calls::{all_bounds, has_bound, settle, start};
use crate::runs::outcome;
use lj_base::{Cell, Memory};
use lj_core::Event;
use lj_samples::{four_triples, upload};
use std::alloc::Global;

const TRIPLES: Cell = Cell { v: 7, k: 3, t: 2 };

const FIVE: Cell = Cell { v: 5, k: 3, t: 2 };

#[test]
fn a_publication_without_a_ticket_leaves_a_fresh_table(rt: HostRuntime) -> Result<(), Memory> {
    let alloc = rt.alloc();
    let fresh = fresh_bounds(alloc, TRIPLES)?;
    let events = vec![in alloc; Event::Publish { worker: 3 }]?;
    let (bounds, reads) = outcome(alloc, TRIPLES, events, false)?;
    assert!(rt; bounds == fresh);
    assert!(rt; reads.is_empty());
    Ok(())
}

fn fresh_bounds(alloc: Global, top: Cell) -> Result<Vec<u64>, Memory> {
    let table = start(alloc, top)?;
    all_bounds(alloc, &table)
}

#[test]
fn two_workers_claim_and_publish_the_smallest_frame(rt: HostRuntime) -> Result<(), Memory> {
    let alloc = rt.alloc();
    let events = vec![in alloc;
        Event::Claim { worker: 0 },
        Event::Claim { worker: 1 },
        Event::Publish { worker: 1 },
        Event::Publish { worker: 0 },
    ]?;
    let (bounds, reads) = outcome(alloc, Cell { v: 2, k: 1, t: 1 }, events, false)?;
    // of (1,0,0), (1,1,0), (1,1,1), (2,0,0), (2,1,0) and (2,1,1)
    assert!(rt; bounds.as_slice() == [1, 1, 1, 1, 1, 2].as_slice());
    assert!(rt; reads.is_empty());
    Ok(())
}

#[test]
fn reads_round_an_accepted_upload(rt: HostRuntime) -> Result<(), Memory> {
    let alloc = rt.alloc();
    let (_bounds, reads) = outcome(alloc, TRIPLES, reads_round(alloc)?, false)?;
    assert!(rt; reads.as_slice() == [10, 4].as_slice());
    Ok(())
}

// A read, the four triples, and a read.
fn reads_round(alloc: Global) -> Result<Vec<Event>, Memory> {
    let up = upload(alloc, 1, four_triples(alloc)?)?;
    let events = vec![in alloc;
        Event::Read { cell: FIVE },
        Event::Accept { up },
        Event::Read { cell: FIVE },
    ]?;
    Ok(events)
}

#[test]
fn each_schedule_of_three_workers_ends_at_the_same_bounds(rt: HostRuntime) -> Result<(), Memory> {
    let alloc = rt.alloc();
    let top = Cell { v: 4, k: 3, t: 2 };
    let settled = settled_bounds(alloc, top)?;
    assert!(rt; settled.len() == 27);
    // six choices at each of five places
    for number in 0..7776 {
        assert!(rt; ends_at(alloc, top, number, &settled)?);
    }
    Ok(())
}

// Whether the schedule of the number ends at the bounds.
fn ends_at(alloc: Global, top: Cell, number: u32, settled: &[u64]) -> Result<bool, Memory> {
    let (bounds, _reads) = outcome(alloc, top, schedule(alloc, number)?, true)?;
    Ok(bounds.as_slice() == settled)
}

fn settled_bounds(alloc: Global, top: Cell) -> Result<Vec<u64>, Memory> {
    let mut table = start(alloc, top)?;
    settle(alloc, &mut table)?;
    all_bounds(alloc, &table)
}

#[test]
fn the_frame_of_the_schedules_has_a_covering_of_three_blocks(
    rt: HostRuntime,
) -> Result<(), Memory> {
    let alloc = rt.alloc();
    let top = Cell { v: 4, k: 3, t: 2 };
    let mut table = start(alloc, top)?;
    settle(alloc, &mut table)?;
    assert!(rt; has_bound(&table, top, 3));
    Ok(())
}

// The schedule of a number: at each place one of three workers claims or publishes.
fn schedule(alloc: Global, number: u32) -> Result<Vec<Event>, Memory> {
    let mut events = Vec::new(alloc);
    let mut rest = number;
    for _ in 0..5 {
        events.push(event_of(rest % 6))?;
        rest /= 6;
    }
    Ok(events)
}

fn event_of(number: u32) -> Event {
    let worker = (number % 3) as u8;
    if number / 3 == 0 {
        Event::Claim { worker }
    } else {
        Event::Publish { worker }
    }
}
