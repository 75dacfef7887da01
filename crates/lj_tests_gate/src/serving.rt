use crate::scripts::{FOUR, FRAME, SEVEN, bounds, served};
use std::test::Fail;

const READS: &str = "bound 5 3 2\nsettle\nbound 6 3 2\nexpand 3 3 2\n";

// A client that uploads, reads, settles and reads again, with one worker and with four.
#[test]
fn a_client_is_served(rt: HostRuntime) -> Result<(), Fail> {
    let want = b"accepted 1 4\nbound 5 3 2 4\nsettled\nbound 6 3 2 7\nexpand 3 3 2 1\n1 2 3\n";
    for workers in [1, 4] {
        let done = served(
            &rt,
            rt.alloc(),
            &[FRAME, "client ann\n", FOUR, READS],
            workers,
        )?;
        let ends = done.ends.items();
        assert_eq!(rt; ends.len(), 1);
        assert!(rt; ends[0].replies.items() == want.as_slice());
        assert!(rt; !done.closed.rebuilt);
        assert_eq!(rt; bounds(&done.closed.table), [3, 4, 7, 9]);
    }
    Ok(())
}

// After a settle a plan costs the least, as the report has it.
#[test]
fn a_plan_costs_the_least_after_a_settle(rt: HostRuntime) -> Result<(), Fail> {
    let parts = [FRAME, "client ann\n", FOUR, "settle\nplan 6 3 2\n"];
    let done = served(&rt, rt.alloc(), &parts, 4)?;
    let ends = done.ends.items();
    assert_eq!(rt; ends.len(), 1);
    let replies = ends[0].replies.items();
    assert!(rt; replies.starts_with(b"accepted 1 4\nsettled\nplan 6 3 2 7\n"));
    assert!(rt; replies.ends_with(b"\nend\n"));
    assert_eq!(rt; bounds(&done.closed.table), [3, 4, 7, 9]);
    Ok(())
}

// Two clients in both orders, with eight workers: the ends stand in the order of the sections.
#[test]
fn two_clients_are_served(rt: HostRuntime) -> Result<(), Fail> {
    let parts = [FRAME, "client ann\n", FOUR, "client bob\n", SEVEN];
    let other = [FRAME, "client bob\n", SEVEN, "client ann\n", FOUR];
    let (four, seven) = ("accepted 1 4\n", "accepted 1 7\n");
    for (parts, first, second) in [(parts, four, seven), (other, seven, four)] {
        let done = served(&rt, rt.alloc(), &parts, 8)?;
        let ends = done.ends.items();
        assert_eq!(rt; ends.len(), 2);
        assert!(rt; ends[0].replies.items() == first.as_bytes());
        assert!(rt; ends[1].replies.items() == second.as_bytes());
        assert!(rt; !done.closed.rebuilt);
        assert_eq!(rt; bounds(&done.closed.table), [3, 4, 7, 7]);
    }
    Ok(())
}

// Without a client the workers alone bring the table to rest.
#[test]
fn no_client_is_served(rt: HostRuntime) -> Result<(), Fail> {
    let done = served(&rt, rt.alloc(), &[FRAME], 3)?;
    assert!(rt; done.ends.items().is_empty());
    assert!(rt; !done.closed.rebuilt);
    assert_eq!(rt; bounds(&done.closed.table), [3, 4, 7, 9]);
    Ok(())
}

// A client without commands gets no replies.
#[test]
fn a_client_without_commands_is_served(rt: HostRuntime) -> Result<(), Fail> {
    let done = served(
        &rt,
        rt.alloc(),
        &[FRAME, "client ann\nclient bob\n", FOUR],
        2,
    )?;
    let ends = done.ends.items();
    assert_eq!(rt; ends.len(), 2);
    assert!(rt; ends[0].replies.items().is_empty());
    assert!(rt; ends[0].accepted.items().is_empty());
    assert_eq!(rt; ends[1].accepted.items().len(), 1);
    Ok(())
}

const CLIENTS: &str =
    "client a\nbound 1 1 0\nclient b\nbound 1 1 0\nclient c\nbound 1 1 0\nclient d\nbound 1 1 0\n\
client e\nbound 1 1 0\nclient f\nbound 1 1 0\nclient g\nbound 1 1 0\nclient h\nbound 1 1 0\n\
client i\nbound 1 1 0\nclient j\nbound 1 1 0\nclient k\nbound 1 1 0\nclient l\nbound 1 1 0\n\
client m\nbound 1 1 0\nclient n\nbound 1 1 0\nclient o\nbound 1 1 0\nclient p\nbound 1 1 0\n";

// As many clients and workers as there may be, over few cells.
#[test]
fn many_clients_and_workers_end(rt: HostRuntime) -> Result<(), Fail> {
    let done = served(&rt, rt.alloc(), &["frame 1 1 1\n", CLIENTS], 64)?;
    let ends = done.ends.items();
    assert_eq!(rt; ends.len(), 16);
    for end in ends {
        assert!(rt; end.replies.items() == b"bound 1 1 0 1\n".as_slice());
    }
    Ok(())
}
