use lj_base::{Cell, Memory};
use lj_upload::Accepted;
use std::alloc::Global;
use std::mem::replace;

/// What a session asks of whoever holds the table.
#[derive(Debug, Drop)]
pub enum Ask {
    /// That this upload be accepted.
    Accept { up: Accepted },
    /// The number of blocks for this cell.
    Bound { cell: Cell },
    /// A derivation for this cell.
    Plan { cell: Cell },
    /// That the table be settled.
    Settle,
    /// Nothing: no command is left.
    Done,
}

impl Ask {
    ghost use Rattle.std.specs.Prelude.{◌≡◌, ◌↔◌, IsTrue, IfOk};
    ghost use Rattle.lj_session.specs.Sessions.{asked_cell, asked_upload};

    pub(crate) fn is_done(&self) -> bool
        ensures { IsTrue result ↔ (self.now ≡ Ask.Done) }
    {
        matches!(self, Ask::Done)
    }

    // The cell of which the number is asked.
    pub(crate) fn cell(&self) -> Cell
        requires { self.now ≡ Ask.Bound (asked_cell self.now) }
        ensures { result ≡ asked_cell self.now }
    {
        match self {
            Ask::Bound { cell } => *cell,
            _ => unreachable!(),
        }
    }

    // Takes the upload out; nothing is asked any more.
    pub(crate) fn take_upload(&mut self) -> Accepted
        requires { self.old ≡ Ask.Accept (asked_upload self.old) }
        ensures up { result ≡ asked_upload self.old }
        ensures done { self.new ≡ Ask.Done }
    {
        match replace(self, Ask::Done) {
            Ask::Accept { up } => up,
            _ => unreachable!(),
        }
    }

    // Memory is taken for the copy of an upload.
    pub(crate) fn copy(&self, alloc: Global) -> Result<Ask, Memory>
        ensures { IfOk result (λ ask. ask ≡ self.now) }
    {
        Ok(match self {
            Ask::Accept { up } => Ask::Accept {
                up: up.copy(alloc)?,
            },
            Ask::Bound { cell } => Ask::Bound { cell: *cell },
            Ask::Plan { cell } => Ask::Plan { cell: *cell },
            Ask::Settle => Ask::Settle,
            Ask::Done => Ask::Done,
        })
    }
}
