ghost use Rattle.std.specs.Prelude.{◌≡◌};
ghost use Rattle.lj_build.specs.Runs.{uploads_of};

use crate::{Built, Closed, build, close};
use lj_base::{Cell, Frame};
use lj_script::{Script, read_script};
use lj_table::Table;
use std::alloc::Global;
use std::test::Fail;

const UPLOAD: &str = "upload 5 3 2\n1 2 3\n1 4 5\n2 4 5\n3 4 5\nend\n";

// A client that uploads the same four triples of five points twice, and a second one that does so as often as is said.
fn uploads(alloc: Global, more: u64) -> Result<Script, Fail> {
    let mut text = Vec::new(alloc);
    text.extend_from_slice(b"frame 7 3 2\nclient ann\n")?;
    text.extend_from_slice(UPLOAD.as_bytes())?;
    text.extend_from_slice(UPLOAD.as_bytes())?;
    text.extend_from_slice(b"client bob\nbound 5 3 2\n")?;
    for _ in 0..more {
        text.extend_from_slice(UPLOAD.as_bytes())?;
    }
    match read_script(alloc, &text) {
        Ok(script) => Ok(script),
        Err(_) => Err("no script".into()),
    }
}

// The numbers of blocks of 3 points for pairs of 4, 5, 6 and 7 points, or 0 where the table has no such cell.
fn bounds(table: &Table) -> [u64; 4] {
    [
        bound(table, Cell { v: 4, k: 3, t: 2 }),
        bound(table, Cell { v: 5, k: 3, t: 2 }),
        bound(table, Cell { v: 6, k: 3, t: 2 }),
        bound(table, Cell { v: 7, k: 3, t: 2 }),
    ]
}

fn bound(table: &Table, cell: Cell) -> u64 {
    if table.frame().has(cell) {
        table.bound(cell)
    } else {
        0
    }
}

fn frame_of_seven() -> Frame {
    Frame::new(Cell { v: 7, k: 3, t: 2 })
}

#[test]
fn sections_are_built_over_one_table(rt: HostRuntime) -> Result<(), Fail> {
    let alloc = rt.alloc();
    let built = build(&rt, alloc, uploads(alloc, 1)?)?;
    let ends = built.ends.items();
    assert_eq!(rt; ends.len(), 2);
    assert!(rt; ends[0].replies.items() == b"accepted 1 4\naccepted 2 4\n".as_slice());
    assert!(rt; ends[1].replies.items() == b"bound 5 3 2 4\naccepted 1 4\n".as_slice());
    assert_eq!(rt; built.table.accepted().len(), 3);
    assert_eq!(rt; bounds(&built.table), [3, 4, 7, 9]);
    Ok(())
}

// A fresh table has the uploads of a run without ends, in its own frame alone.
#[test]
fn a_run_without_ends_is_closed(rt: HostRuntime) -> Result<(), Fail> {
    let alloc = rt.alloc();
    let frame = frame_of_seven();
    let closed = close(alloc, frame, Table::start(alloc, frame)?, &[])?;
    assert!(rt; !closed.rebuilt);
    assert_eq!(rt; bounds(&closed.table), [3, 4, 7, 9]);
    let other = Frame::new(Cell { v: 3, k: 2, t: 1 });
    let closed = close(alloc, frame, Table::start(alloc, other)?, &[])?;
    assert!(rt; closed.rebuilt);
    assert_eq!(rt; bounds(&closed.table), [3, 4, 7, 9]);
    Ok(())
}

// Closes the run that was built with any table.
fn close_built(alloc: Global, built: &Built, table: Table) -> Result<Closed, Fail>
    requires { built.now.table.arena.uploads ≡ uploads_of built.now.ends }
{
    if built.table.accepted().len() > 4 {
        return Err("too many uploads".into());
    }
    Ok(close(alloc, built.table.frame(), table, built.ends.items())?)
}

// A table with an upload too few, or too many, is made anew, and the one that is made is kept.
#[test]
fn a_table_with_other_uploads_is_made_anew(rt: HostRuntime) -> Result<(), Fail> {
    let alloc = rt.alloc();
    let built = build(&rt, alloc, uploads(alloc, 1)?)?;
    for more in [0, 2] {
        let other = build(&rt, alloc, uploads(alloc, more)?)?;
        let closed = close_built(alloc, &built, other.table)?;
        assert!(rt; closed.rebuilt);
        assert_eq!(rt; closed.table.accepted().len(), 3);
        let closed = close_built(alloc, &built, closed.table)?;
        assert!(rt; !closed.rebuilt);
        assert_eq!(rt; bounds(&closed.table), [3, 4, 7, 9]);
    }
    Ok(())
}
