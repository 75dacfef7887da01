//! Runs of events over a fresh table of any frame.

ghost use Rattle.std.specs.Prelude.{All, IsTrue};
ghost use Rattle.lj_core.specs.Runs.{IsEventIn};

use crate::calls::{all_bounds, frame_of};
use lj_base::{Cell, Frame, Memory};
use lj_core::{Event, Trace, replay};
use std::alloc::Global;

/// The bounds at the end of a run of the events, in index order, or those at rest after it, and what was read. Both
/// lists are empty where an event is not in the frame with this greatest cell.
pub fn outcome(
    alloc: Global,
    top: Cell,
    events: Vec<Event>,
    settles: bool,
) -> Result<(Vec<u64>, Vec<u64>), Memory> {
    let frame = frame_of(top);
    if events.len() <= 100 && are_in(frame, &events) {
        let trace = replay(alloc, frame, events)?;
        lists(alloc, trace, settles)
    } else {
        Ok((Vec::new(alloc), Vec::new(alloc)))
    }
}

fn lists(alloc: Global, trace: Trace, settles: bool) -> Result<(Vec<u64>, Vec<u64>), Memory> {
    let Trace { mut table, reads } = trace;
    if settles {
        table.settle(alloc)?;
    }
    Ok((all_bounds(alloc, &table)?, reads.into_vec()))
}

// Whether each event is in the frame.
fn are_in(frame: Frame, events: &[Event]) -> bool
    ensures { IsTrue result → All (IsEventIn frame) events.now }
{
    for event in events {
        if !event.is_in(frame) {
            return false;
        }
    }
    true
}
