ghost use Rattle.std.specs.Prelude.{◌≡◌, ◌<◌, ◌≤◌, [], ◌∷◌, ◌++◌, length, slice_index};
ghost use Rattle.lj_base.specs.Blocks.{AllBelow, Ascends};

use lj_base::Points;
use std::marker::Model;

/// A set that has to be covered: at most 8 points below 99, seen as their strictly ascending list.
#[derive(Clone, Copy, Debug, PartialEq, Eq)]
pub struct TSet {
    points: Points<8>,
}

impl Model for TSet {
    ghost use Rattle.std.specs.Prelude.{ℕ, List};

    ghost Value = { List ℕ };

    ghost view = { λ s. s.points };

    ghost inverse = { λ s. record { points = s } };
}

impl TSet {
    pub fn empty() -> TSet
        ensures { result ≡ [] }
    {
        TSet {
            points: Points::empty(),
        }
    }

    /// Adds a point after the others, which are all below it.
    pub fn push(&mut self, p: u8)
        requires in_range { p < 99 }
        requires greatest { AllBelow p self.old }
        requires room { length self.old < 8 }
        ensures { self.new ≡ self.old ++ p ∷ [] }
    {
        self.points.push(p);
    }

    pub fn len(&self) -> u64
        ensures len { result ≡ length self.now }
        ensures ascends { Ascends 0 99 self.now }
        ensures short { length self.now ≤ 8 }
    {
        self.points.len()
    }

    /// The point at a place, from 0.
    pub fn at(&self, i: u64) -> u8
        requires { i < length self.now }
        ensures { result ≡ slice_index self.now i }
    {
        self.points.at(i)
    }
}
