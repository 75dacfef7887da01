use crate::given::{four, last_bounds, seven};
use lj_base::{Cell, Frame};
use lj_relax::{Ticket, evaluate};
use lj_shared::{Next, State};
use lj_table::{Outcome, Table};
use std::alloc::Global;
use std::test::Fail;

// What there is for a worker with a new ticket, and the ticket.
fn next_with(alloc: Global, state: &mut State, frame: Frame) -> Result<(Next, Ticket), Fail> {
    let mut ticket = Ticket::new(alloc, frame)?;
    if frame != state.table.frame() || state.table.accepted().len() != 0 {
        return Err("a table of another frame, or with uploads".into());
    }
    let next = state.next(&mut ticket);
    Ok((next, ticket))
}

#[test]
fn a_state_gets_a_table_of_another_frame_once(rt: HostRuntime) -> Result<(), Fail> {
    let alloc = rt.alloc();
    let small = Frame::new(Cell { v: 3, k: 2, t: 1 });
    let mut state = State {
        table: Table::start(alloc, small)?,
        clients: 0,
    };
    assert!(rt; state.ready(alloc, seven())?);
    assert!(rt; !state.ready(alloc, seven())?);
    let own = vec![in alloc; four(alloc)?]?;
    assert_eq!(rt; state.lacks(&own), Some(0));
    assert_eq!(rt; state.lacks(&[]), None);
    Ok(())
}

#[test]
fn a_state_publishes_what_fits(rt: HostRuntime) -> Result<(), Fail> {
    let alloc = rt.alloc();
    let small = Frame::new(Cell { v: 3, k: 2, t: 1 });
    let mut state = State {
        table: Table::start(alloc, seven())?,
        clients: 0,
    };
    let (next, ticket) = next_with(alloc, &mut state, seven())?;
    assert_eq!(rt; next, Next::Claimed);
    assert_eq!(rt; ticket.cell(), Cell { v: 1, k: 0, t: 0 });
    let outcome = Outcome {
        lowered: false,
        agreed: true,
    };
    assert_eq!(rt; state.put(&evaluate(ticket))?, Some(outcome));
    let other = Ticket::new(alloc, small)?;
    assert_eq!(rt; state.put(&evaluate(other))?, None);
    Ok(())
}

#[test]
fn a_state_at_rest_waits_for_clients(rt: HostRuntime) -> Result<(), Fail> {
    let alloc = rt.alloc();
    let mut state = State {
        table: Table::start(alloc, seven())?,
        clients: 0,
    };
    state.table.settle(alloc)?;
    assert_eq!(rt; next_with(alloc, &mut state, seven())?.0, Next::Ended);
    state.clients = 1;
    assert_eq!(rt; next_with(alloc, &mut state, seven())?.0, Next::Waits);
    state.leave();
    assert_eq!(rt; state.clients, 0);
    state.leave();
    assert_eq!(rt; state.clients, 0);
    assert_eq!(rt; last_bounds(&state.table), Some([3, 4, 7, 9]));
    Ok(())
}
