ghost use Rattle.lj_base.specs.Frames.{InFrame};

use crate::plain;
use lj_base::{Cell, Frame};
use lj_relax::{Dependents, reads};

#[test]
fn the_readers_of_a_cell_in_index_order(rt: HostRuntime) {
    let frame = Frame::new(Cell { v: 7, k: 3, t: 2 });
    let mut readers = Dependents::of(frame, Cell { v: 5, k: 3, t: 2 });
    assert!(rt; readers.next() == Some(Cell { v: 4, k: 3, t: 2 }));
    assert!(rt; readers.next() == Some(Cell { v: 5, k: 3, t: 1 }));
    assert!(rt; readers.next() == Some(Cell { v: 6, k: 3, t: 2 }));
    assert!(rt; readers.next() == Some(Cell { v: 7, k: 3, t: 2 }));
    assert!(rt; readers.next() == None);
    assert!(rt; readers.next() == None);
}

#[test]
fn readers_are_those_of_a_plain_program(rt: HostRuntime) {
    assert!(rt; are_plain(Frame::new(Cell { v: 7, k: 4, t: 3 })));
    assert!(rt; are_plain(Frame::new(Cell { v: 6, k: 6, t: 2 })));
    assert!(rt; are_plain(Frame::new(Cell { v: 1, k: 1, t: 0 })));
}

// Whether at each cell the test and the walk give the readers of the plain program.
fn are_plain(frame: Frame) -> bool {
    for i in 0..frame.size() {
        if !is_plain(frame, frame.cell(i)) {
            return false;
        }
    }
    true
}

fn is_plain(frame: Frame, child: Cell) -> bool
    requires { InFrame frame child }
{
    let mut readers = Dependents::of(frame, child);
    for i in 0..frame.size() {
        let reader = frame.cell(i);
        let found = plain::reads(frame, reader, child);
        if reads(frame, reader, child) != found {
            return false;
        }
        if found && readers.next() != Some(reader) {
            return false;
        }
    }
    readers.next() == None
}
