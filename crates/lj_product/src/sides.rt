ghost use Rattle.std.specs.Prelude.{◌≡◌, ◌+◌, ◌-◌, ◌<◌, ◌≤◌};
ghost use Rattle.lj_base.specs.Frames.{InFrame};
ghost use Rattle.lj_cover.specs.Rules.{triple};
ghost use Rattle.lj_product.specs.Sides.{AreOffsets, AreSides, cell_of};

use lj_base::{Frame, index_law};

/// A cell whose points are split in two: its three numbers, how many points the first side has, and the index of the
/// first cell of the frame with as many points as each side.
#[derive(Clone, Copy)]
pub struct Sides {
    pub v: usize,
    pub k: usize,
    pub t: usize,
    pub v1: usize,
    pub first: usize,
    pub second: usize,
}

impl Sides {
    pub fn of(frame: Frame, v: usize, k: usize, t: usize, v1: usize) -> Sides
        requires inside { InFrame frame (triple v k t) }
        requires first_side { 1 ≤ v1 }
        requires second_side { v1 < v }
        ensures sides { AreSides frame result }
        ensures cell { cell_of result ≡ triple v k t }
        ensures v1 { result.v1 ≡ v1 }
    {
        let _ = frame.top.v;
        Sides {
            v,
            k,
            t,
            v1,
            first: frame.cells_before_v(v1 as u8) as usize,
            second: frame.cells_before_v((v - v1) as u8) as usize,
        }
    }

    /// The sides with one point more on the first.
    pub fn shifted(self, frame: Frame, offsets: &[usize; 27]) -> Sides
        requires sides { AreSides frame self }
        requires offsets { AreOffsets frame offsets.now }
        requires second_side { self.v1 + 1 < self.v }
        ensures sides { AreSides frame result }
        ensures cell { cell_of result ≡ cell_of self }
        ensures v1 { result.v1 ≡ self.v1 + 1 }
    {
        index_law();
        let top = frame.top;
        let k = top.k as usize;
        let second = self.v - self.v1 - 1;
        Sides {
            v1: self.v1 + 1,
            first: self.first + offsets[self.v1.min(k) + 1],
            second: self.second - offsets[second.min(k) + 1],
            ..self
        }
    }
}
