ghost use Rattle.std.specs.Prelude.{◌≡◌, ◌⊎◌, ℕ, ◌+◌, ◌<◌, ◌≤◌, ◌↔◌, [], ◌∷◌, ◌++◌, length, IsTrue, slice_index};
ghost use Rattle.std.specs.Bool.{OnFalse, OnTrue};
ghost use Rattle.lj_base.specs.Blocks.{AllBelow, Ascends, Has};

use crate::points::Points;
use std::marker::Model;

/// A block: at most 25 points below 99, seen as their strictly ascending list.
#[derive(Clone, Copy, Debug, PartialEq, Eq)]
pub struct Block {
    points: Points<25>,
}

impl Model for Block {
    ghost use Rattle.std.specs.Prelude.{ℕ, List};

    ghost Value = { List ℕ };

    ghost view = { λ b. b.points };

    ghost inverse = { λ s. record { points = s } };
}

impl Block {
    pub fn empty() -> Block
        ensures { result ≡ [] }
    {
        Block {
            points: Points::empty(),
        }
    }

    /// Adds a point after the others, which are all below it.
    pub fn push(&mut self, p: u8)
        requires in_range { p < 99 }
        requires greatest { AllBelow p self.old }
        requires room { length self.old < 25 }
        ensures { self.new ≡ self.old ++ p ∷ [] }
    {
        self.points.push(p);
    }

    /// Adds a point at its place. Returns false, and changes nothing, where the point is there already.
    pub fn insert(&mut self, p: u8) -> bool
        requires in_range { p < 99 }
        requires room { length self.old < 25 }
        ensures fresh { OnTrue result (Has self.old p → ⊥) }
        ensures points { OnTrue result ((q : ℕ) → Has self.new q ↔ ((p ≡ q) ⊎ Has self.old q)) }
        ensures len { OnTrue result (length self.new ≡ length self.old + 1) }
        ensures there { OnFalse result (Has self.old p × (self.new ≡ self.old)) }
    {
        self.points.insert(p)
    }

    pub fn len(&self) -> u64
        ensures len { result ≡ length self.now }
        ensures ascends { Ascends 0 99 self.now }
        ensures short { length self.now ≤ 25 }
    {
        self.points.len()
    }

    /// The point at a place, from 0.
    pub fn at(&self, i: u64) -> u8
        requires { i < length self.now }
        ensures { result ≡ slice_index self.now i }
    {
        self.points.at(i)
    }

    pub fn has(&self, p: u8) -> bool
        ensures { IsTrue result ↔ Has self.now p }
    {
        self.points.has(p)
    }
}
