use crate::driven::replies_to;
use lj_base::{Cell, Frame};
use lj_deriv::{Arena, Rule};
use std::alloc::Global;
use std::test::Fail;

// A plan's lines, an expand's blocks and a bound, as many times as they are asked for.
#[test]
fn a_plan_is_written_and_expanded(rt: HostRuntime) -> Result<(), Fail> {
    let alloc = rt.alloc();
    let mut arena = Arena::new(alloc, Frame::new(Cell { v: 5, k: 2, t: 1 }));
    arena.reserve(1)?;
    arena.add(Rule::Runs {
        cell: Cell { v: 5, k: 2, t: 1 },
    });
    let text = b"frame 5 2 1
client a
plan 5 2 1
expand 5 2 1
client b
expand 5 2 1
bound 5 2 1
";
    let want = b"plan 5 2 1 3
1 runs 5 2 1 3
end
expand 5 2 1 3
1 2
3 4
1 5
expand 5 2 1 3
1 2
3 4
1 5
bound 5 2 1 2
";
    let replies = replies_to(&rt, alloc, &arena, text.as_slice())?;
    assert!(rt; replies.as_slice() == want.as_slice());
    Ok(())
}

// A node for each cell that is expanded below: all sets of k of v points.
fn arena_of_all(alloc: Global) -> Result<Arena, Fail> {
    let mut arena = Arena::new(alloc, Frame::new(Cell { v: 40, k: 6, t: 6 }));
    for (v, k) in [
        (40, 5),
        (33, 5),
        (21, 6),
        (20, 6),
        (17, 5),
        (20, 4),
        (11, 5),
        (9, 4),
        (11, 1),
    ] {
        let cell = Cell { v, k, t: k };
        if !arena.frame().has(cell) {
            return Err("a cell outside the frame".into());
        }
        arena.reserve(1)?;
        arena.add(Rule::All { cell });
    }
    Ok(arena)
}

// How many lines there are, with what follows the last LF, and the lines of what is too big.
fn lines_of(alloc: Global, replies: &[u8]) -> Result<(u64, Vec<u8>), Fail> {
    let mut lines: u64 = 0;
    let mut too_big = Vec::new(alloc);
    for line in replies.split(|byte| *byte == b'\n') {
        lines = lines.saturating_add(1);
        if line.starts_with(b"toobig") {
            too_big.extend_from_slice(line)?;
            too_big.extend_from_slice(b"\n")?;
        }
    }
    Ok((lines, too_big))
}

// All expand replies of a client have up to a million blocks, here exactly as many. What is too big adds nothing, and
// another client begins anew.
#[test]
fn a_million_blocks_are_expanded_and_no_more(rt: HostRuntime) -> Result<(), Fail> {
    let alloc = rt.alloc();
    let arena = arena_of_all(alloc)?;
    let text = b"frame 40 6 6
client a
expand 40 5 5
expand 40 5 5
expand 33 5 5
expand 21 6 6
expand 20 6 6
expand 17 5 5
expand 20 4 4
expand 11 5 5
expand 9 4 4
expand 11 1 1
expand 11 1 1
bound 11 1 1
expand 9 4 4
client b
expand 11 1 1
";
    let replies = replies_to(&rt, alloc, &arena, text.as_slice())?;
    let (lines, too_big) = lines_of(alloc, &replies)?;
    let want = b"toobig 40 5 5 658008\ntoobig 11 1 1 11\ntoobig 9 4 4 126\n";
    assert!(rt; too_big.as_slice() == want.as_slice());
    // Nine replies with a million blocks, four lines, another reply with eleven blocks, and what follows the last LF.
    assert_eq!(rt; lines, 9 + 1_000_000 + 4 + 12 + 1);
    Ok(())
}
