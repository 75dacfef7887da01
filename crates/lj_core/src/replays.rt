ghost use Rattle.std.specs.Prelude.{◌≡◌, ◌<◌, ◌≤◌, ◌++◌, ◌∷◌, [], All, IfOk, OnOk, length};
ghost use Rattle.lj_base.specs.Frames.{InFrame};
ghost use Rattle.lj_core.specs.Replays.{AreReady, HasStepped, IsTrace};
ghost use Rattle.lj_core.specs.Runs.{IsEventIn};
ghost use Rattle.lj_table.specs.Tables.{state_of};

use crate::events::Event;
use crate::laws::{reads_are_bounds, runs_add_uploads};
use crate::reads::Reads;
use crate::tickets::{claim, empty_places, publish};
use lj_base::{Cell, Frame, Memory};
use lj_deriv::MAX_ARENA_UPLOADS;
use lj_relax::Ticket;
use lj_relax::laws::rest_is_least;
use lj_table::Table;
use std::alloc::Global;

/// What a run comes to: the table at its end, and what was read, in order.
#[derive(Drop)]
pub struct Trace {
    pub table: Table,
    pub reads: Reads,
}

/// Runs the events in order over a fresh table, on one thread.
pub fn replay(alloc: Global, frame: Frame, events: Vec<Event>) -> Result<Trace, Memory>
    requires inside { All (IsEventIn frame) events.items }
    requires few { length events.items ≤ MAX_ARENA_UPLOADS }
    ensures { IfOk result (λ trace. IsTrace frame events.items trace.reads trace.table) }
{
    runs_add_uploads();
    reads_are_bounds();
    rest_is_least();
    let mut table = Table::start(alloc, frame)?;
    let _start = table.frame();
    let mut tickets = empty_places(alloc)?;
    let mut reads = Vec::new(alloc);
    for event in events {
        step(alloc, &mut table, &mut tickets, &mut reads, event)?;
    }
    let _end = table.frame();
    let _uploads = table.accepted();
    Ok(Trace {
        table,
        reads: Reads::of(reads),
    })
}

// One event.
fn step(
    alloc: Global,
    table: &mut Table,
    tickets: &mut Vec<Option<Ticket>>,
    reads: &mut Vec<u64>,
    event: Event,
) -> Result<(), Memory>
    requires ready { AreReady table.old tickets.old.items }
    requires inside { IsEventIn table.old.arena.frame event }
    requires few { length table.old.arena.uploads < MAX_ARENA_UPLOADS }
    ensures { OnOk result (HasStepped table.old tickets.old.items reads.old.items event
        table.new tickets.new.items reads.new.items) }
{
    match event {
        Event::Accept { up } => table.accept(up)?,
        Event::Claim { worker } => claim(alloc, table, tickets, worker)?,
        Event::Publish { worker } => publish(table, tickets, worker)?,
        Event::Read { cell } => read(table, reads, cell)?,
    }
    Ok(())
}

// Appends the bound of a cell.
fn read(table: &Table, reads: &mut Vec<u64>, cell: Cell) -> Result<(), Memory>
    requires { InFrame table.now.arena.frame cell }
    ensures { OnOk result (reads.new.items ≡ reads.old.items ++ (state_of table.now).bounds cell ∷ []) }
{
    let bound = table.bound(cell);
    reads.push(bound)?;
    Ok(())
}
