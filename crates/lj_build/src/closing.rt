ghost use Rattle.std.specs.Prelude.{◌≡◌, ◌↔◌, ◌+◌, ◌<◌, ◌++◌, IfOk, IsFalse, IsTrue, OnOk, if◌then◌else◌, length};
ghost use Rattle.std.specs.List.{AllByRecursion};
ghost use Rattle.lj_base.specs.Frames.{InFrame, size_of};
ghost use Rattle.lj_relax.specs.Tickets.{TicketLists};
ghost use Rattle.lj_table.specs.Tables.{Fits};
ghost use Rattle.lj_build.specs.Building.{Rests};
ghost use Rattle.lj_build.specs.Closing.{HasUploads, IsClosed};
ghost use Rattle.lj_build.specs.Runs.{uploads_of};

use crate::matching::are_same;
use lj_base::{Frame, Memory};
use lj_cover::laws::least_is_one;
use lj_deriv::MAX_ARENA_UPLOADS;
use lj_session::SessionEnd;
use lj_table::Table;
use lj_upload::Accepted;
use std::alloc::Global;

/// A table at rest over the uploads of all ends, and whether it was made anew.
#[derive(Drop)]
pub struct Closed {
    pub table: Table,
    pub rebuilt: bool,
}

/// Closes a run whose sessions have these ends. A table of the frame that has just the ends' uploads, each as often and
/// in whatever order, is settled; in place of any other table a new one is made from the uploads in their order. Cost,
/// besides that of settling: a step for each upload and each end where the table has each client's uploads in order.
pub fn close(
    alloc: Global,
    frame: Frame,
    mut table: Table,
    ends: &[SessionEnd],
) -> Result<Closed, Memory>
    requires inside { AllByRecursion (λ u. InFrame frame u.cell) (uploads_of ends.now) }
    requires few { length (uploads_of ends.now) < MAX_ARENA_UPLOADS }
    ensures rebuilt { IfOk result (λ closed. IsFalse closed.rebuilt ↔ HasUploads frame (uploads_of ends.now) table) }
    ensures uploads { IfOk result (λ closed. closed.table.arena.uploads
        ≡ (if closed.rebuilt then uploads_of ends.now else table.arena.uploads)) }
    ensures kept { IfOk result (λ closed. IsFalse closed.rebuilt
        → (q : TicketLists) → Fits table.arena q → Fits closed.table.arena q) }
    ensures closed { IfOk result (λ closed. IsClosed frame (uploads_of ends.now) closed.table) }
{
    least_is_one();
    if has_uploads(alloc, frame, &table, ends)? {
        table.settle(alloc)?;
        let _count = table.frame();
        Ok(Closed {
            table,
            rebuilt: false,
        })
    } else {
        let table = made_anew(alloc, frame, ends)?;
        Ok(Closed {
            table,
            rebuilt: true,
        })
    }
}

// Whether the table is of the frame and has just the uploads of the ends.
fn has_uploads(
    alloc: Global,
    frame: Frame,
    table: &Table,
    ends: &[SessionEnd],
) -> Result<bool, Memory>
    ensures { IfOk result (λ same. IsTrue same ↔ HasUploads frame (uploads_of ends.now) table.now) }
{
    if is_of(table, frame) {
        are_same(alloc, table.accepted(), ends)
    } else {
        Ok(false)
    }
}

fn is_of(table: &Table, frame: Frame) -> bool
    ensures { IsTrue result ↔ (table.now.arena.frame ≡ frame) }
{
    table.frame() == frame
}

// A table at rest over the uploads of the ends, in order.
fn made_anew(alloc: Global, frame: Frame, ends: &[SessionEnd]) -> Result<Table, Memory>
    requires inside { AllByRecursion (λ u. InFrame frame u.cell) (uploads_of ends.now) }
    requires few { length (uploads_of ends.now) < MAX_ARENA_UPLOADS }
    ensures rests { IfOk result (Rests frame (uploads_of ends.now)) }
    ensures count { IfOk result (λ t. length t.bounds ≡ size_of t.arena.frame) }
{
    let mut fresh = Table::start(alloc, frame)?;
    for end in ends {
        accept_all(alloc, &mut fresh, end.accepted.items())?;
    }
    fresh.settle(alloc)?;
    let _count = fresh.frame();
    Ok(fresh)
}

// The table accepts a copy of each of the uploads.
fn accept_all(alloc: Global, table: &mut Table, uploads: &[Accepted]) -> Result<(), Memory>
    requires inside { AllByRecursion (λ u. InFrame table.old.arena.frame u.cell) uploads.now }
    requires few { length table.old.arena.uploads + length uploads.now < MAX_ARENA_UPLOADS }
    ensures frame { OnOk result (table.new.arena.frame ≡ table.old.arena.frame) }
    ensures uploads { OnOk result (table.new.arena.uploads ≡ table.old.arena.uploads ++ uploads.now) }
{
    for up in uploads {
        table.accept(up.copy(alloc)?)?;
    }
    Ok(())
}
