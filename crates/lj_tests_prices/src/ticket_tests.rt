use crate::lists::{are_bounds, fresh, is_row, mixed_row};
use lj_base::{Cell, Frame};
use lj_relax::{Found, Ticket, evaluate};

#[test]
fn a_ticket_is_filled_and_evaluated(rt: HostRuntime) {
    let frame = Frame::new(Cell { v: 7, k: 3, t: 2 });
    let cell = Cell { v: 5, k: 3, t: 2 };
    let mut ticket = Ticket::new(rt.alloc(), frame).expect(&rt, "memory");
    assert_eq!(rt; ticket.cell(), Cell { v: 1, k: 0, t: 0 });
    assert_eq!(rt; ticket.bound(cell), 10);
    assert_eq!(rt; ticket.room(), 0);
    ticket.reserve(2).expect(&rt, "memory");
    assert_eq!(rt; ticket.room(), 2);
    ticket.reserve(1).expect(&rt, "memory");
    assert_eq!(rt; ticket.room(), 2);

    let numbers = fresh(rt.alloc(), frame).expect(&rt, "memory");
    let nodes = vec![in rt.alloc(); 3; frame.size() as usize].expect(&rt, "memory");
    let fit = are_bounds(frame, &numbers);
    assert!(rt; fit && nodes.len() as u64 == frame.size());
    ticket.fill(cell, &numbers, &nodes);
    assert_eq!(rt; ticket.node(cell), 3);
    let proposal = evaluate(ticket);
    assert!(rt; proposal.cost() == Some(4));
    assert!(rt; matches!(proposal.found(), Found::Product { .. }));

    let mut ticket = proposal.into_ticket();
    let row = mixed_row(frame, cell, 0);
    let fits = is_row(frame, cell, &row);
    assert!(rt; fits);
    ticket.push_row(row);
    assert!(rt; ticket.rows() == [row].as_slice());
}
