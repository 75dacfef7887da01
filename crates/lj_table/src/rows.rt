ghost use Rattle.std.specs.Prelude.{◌≡◌, ◌+◌, ◌≤◌, ◌++◌, length};
ghost use Rattle.std.specs.List.{AllByRecursion};
ghost use Rattle.lj_base.specs.Frames.{InFrame};
ghost use Rattle.lj_cover.specs.Instances.{rows_at};

use lj_cover::laws::rows_are_of_uploads;
use lj_deriv::MAX_ARENA_UPLOADS;
use lj_relax::Ticket;
use lj_rows::{row_of, serves};
use lj_upload::Accepted;

/// Appends the rows at the ticket's cell. It takes no memory.
pub fn push_rows(uploads: &[Accepted], ticket: &mut Ticket)
    requires room { length ticket.old.rows + length uploads.now ≤ ticket.old.room }
    requires few { length uploads.now ≤ MAX_ARENA_UPLOADS }
    requires inside { AllByRecursion (λ u. InFrame ticket.old.frame u.cell) uploads.now }
    ensures { ticket.new
        ≡ record ticket.old { rows = ticket.old.rows ++ rows_at uploads.now ticket.old.cell } }
{
    rows_are_of_uploads();
    let (frame, c) = (ticket.frame(), ticket.cell());
    for (i, up) in uploads.iter().enumerate() {
        if serves(up, c) {
            ticket.push_row(row_of(frame, up, i as u32, c));
        }
    }
}
