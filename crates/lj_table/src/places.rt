ghost use Rattle.std.specs.Prelude.{◌≡◌, ℕ, ◌<◌, ◌≤◌};
ghost use Rattle.lj_base.specs.Cells.{IsCell, Triple};
ghost use Rattle.lj_base.specs.Frames.{InFrame, cells_before_v, index_of, size_of};
ghost use Rattle.lj_base.specs.declared.limits.TheConstants.{MAX_CELLS};

use lj_base::{Cell, Frame, cells_law};

/// Places of cells in the order of their frame, for walks in that order: of how many cells have fewer points it keeps
/// what it found last.
#[derive(Drop)]
pub struct Places {
    frame: Frame,
    v: u8,
    before: u64,
    ghost known: { before ≡ cells_before_v frame v },
    ghost small: { before ≤ MAX_CELLS },
}

impl Places {
    pub fn of(frame: Frame, c: Cell) -> Places
        requires { InFrame frame c }
        ensures { result.frame ≡ frame }
    {
        Places {
            frame,
            v: c.v,
            before: frame.cells_before_v(c.v),
        }
    }

    /// The place of a cell. Cost: a few steps, where it has as many points as the cell before.
    pub fn place(&mut self, c: Cell) -> u64
        requires { InFrame self.old.frame c }
        ensures place { result ≡ index_of self.old.frame c }
        ensures frame { self.new.frame ≡ self.old.frame }
    {
        self.go_to(c.v);
        self.before + self.frame.cells_before_k(c.k) + c.t as u64
    }

    // Finds how many cells have fewer points, where the number of points is another.
    fn go_to(&mut self, v: u8)
        requires some { 1 ≤ v }
        requires inside { v ≤ self.old.frame.top.v }
        ensures v { self.new.v ≡ v }
        ensures frame { self.new.frame ≡ self.old.frame }
    {
        if v != self.v {
            self.before = self.frame.cells_before_v(v);
            self.v = v;
        }
    }
}

/// Each place below a frame's size is the index of one of its cells. It does nothing.
pub fn places_law(frame: Frame)
    ensures { (j : ℕ) → j < size_of frame → (c : Triple) × InFrame frame c × (index_of frame c ≡ j) }
{
    cells_law();
    top_law(frame);
}

/// The greatest numbers of a frame are those of a cell. It does nothing.
pub fn top_law(frame: Frame)
    ensures { IsCell frame.top }
{
    let _ = frame.top.v;
}
