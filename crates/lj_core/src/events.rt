use lj_base::{Cell, Frame};
use lj_upload::Accepted;

/// What may happen to a table with workers. A worker is any number of a `u8`.
#[derive(Debug, Drop)]
pub enum Event {
    /// An upload is accepted.
    Accept { up: Accepted },
    /// The worker's ticket is filled anew; where no cell is open the worker has none afterwards.
    Claim { worker: u8 },
    /// The worker's ticket is evaluated, published and used up; without one nothing happens.
    Publish { worker: u8 },
    /// The bound of a cell is read.
    Read { cell: Cell },
}

impl Event {
    ghost use Rattle.std.specs.Prelude.{◌↔◌, IsTrue};
    ghost use Rattle.lj_core.specs.Runs.{IsEventIn};

    /// Whether the frame has the event's cell, or that of its upload.
    pub fn is_in(&self, frame: Frame) -> bool
        ensures { IsTrue result ↔ IsEventIn frame self.now }
    {
        match self {
            Event::Accept { up } => frame.has(up.design().cell()),
            Event::Claim { worker: _ } | Event::Publish { worker: _ } => true,
            Event::Read { cell } => frame.has(*cell),
        }
    }
}
