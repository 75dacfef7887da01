ghost use Rattle.std.specs.Prelude.{◌≡◌, ◌≤◌, IfOk};
ghost use Rattle.lj_base.specs.Frames.{InFrame};
ghost use Rattle.lj_cover.specs.Rules.{triple};

use lj_base::{Cell, Frame, Memory};
use lj_board::Setting;
use lj_samples::{block, covering, four_triples, upload};
use lj_table::Table;
use lj_upload::Accepted;
use std::alloc::Global;
use std::marker::{Brand, PhantomData};

/// Names the history of a run's table.
pub trait Named {
    ghost use Rattle.atomic_table.specs.Seated.{TableId};

    ghost history: { TableId };
}

// A call at `Brand` chooses the history in its proof, whatever it is here.
impl Named for Brand {
    ghost use Rattle.lj_board.specs.Seen.{any_history};

    ghost history = { any_history };
}

/// Runs on the frame of (7,3,2), which allow every upload.
pub struct EveryUpload<N> {
    named: PhantomData<N>,
}

impl<N: Named> Setting for EveryUpload<N> {
    ghost frame = { record { top = record { v = 7; k = 3; t = 2 } } };

    ghost allowed = { λ upload. Unit {0} };

    ghost history = { N.history };
}

/// The frame of (7,3,2).
pub fn seven() -> Frame
    ensures { result ≡ record { top = triple 7 3 2 } }
{
    Frame::new(Cell { v: 7, k: 3, t: 2 })
}

pub fn cell_of(v: u8) -> Cell
    requires low { 3 ≤ v }
    requires high { v ≤ 7 }
    ensures cell { result ≡ triple v 3 2 }
    ensures inside { InFrame (record { top = triple 7 3 2 }) result }
{
    Cell { v, k: 3, t: 2 }
}

/// Four blocks at (5,3,2), by `ann`.
pub fn four(alloc: Global) -> Result<Accepted, Memory>
    ensures { IfOk result (λ up. InFrame (record { top = triple 7 3 2 }) up.cell) }
{
    upload(alloc, 1, four_triples(alloc)?)
}

/// Five blocks at (5,3,2), by `ann`.
pub fn five(alloc: Global) -> Result<Accepted, Memory>
    ensures { IfOk result (λ up. InFrame (record { top = triple 7 3 2 }) up.cell) }
{
    let blocks = vec![in alloc;
        block(&[0, 1, 2]),
        block(&[0, 3, 4]),
        block(&[1, 3, 4]),
        block(&[2, 3, 4]),
        block(&[0, 1, 2]),
    ]?;
    upload(alloc, 2, covering(Cell { v: 5, k: 3, t: 2 }, blocks))
}

/// The bounds at (4,3,2) to (7,3,2).
pub fn last_bounds(table: &Table) -> Option<[u64; 4]> {
    if table.frame() != seven() {
        return None;
    }
    bounds_at(table)
}

fn bounds_at(table: &Table) -> Option<[u64; 4]>
    requires { table.now.arena.frame ≡ record { top = triple 7 3 2 } }
{
    Some([
        table.bound(cell_of(4)),
        table.bound(cell_of(5)),
        table.bound(cell_of(6)),
        table.bound(cell_of(7)),
    ])
}
