ghost use Rattle.std.specs.Prelude.{◌≡◌, ◌⊎◌, ℕ, ◌+◌, ◌<◌, ◌≤◌, ◌↔◌, [], ◌∷◌, ◌++◌, length, IsTrue, slice_index};
ghost use Rattle.std.specs.Bool.{OnFalse, OnTrue};
ghost use Rattle.lj_base.specs.Blocks.{AllBelow, Ascends, Has};

use std::marker::Model;

/// At most `N` points below 99, strictly ascending, in `N + 1` bytes: what blocks and sets are made of.
#[derive(Clone, Copy, Debug, PartialEq, Eq)]
pub struct Points<const N: usize> {
    points: [u8; N],
    len: u8,
}

impl<const N: usize> Model for Points<N> {
    ghost use Rattle.std.specs.Prelude.{ℕ, List, ◌-◌, ◌++◌, length, take, replicate};
    ghost use Rattle.lj_base.specs.Padding.{HoldsPoints, array_back, count_back};

    ghost Value = { List ℕ };

    ghost view = { λ p. take p.len p.points };

    ghost invariant = { λ p. HoldsPoints N p.len p.points };

    ghost inverse = { λ s. record { points = s ++ replicate (N - length s) 0; len = length s } };

    ghost inverse_ok = { λ p h i. record {
      points = array_back N p.len p.points h.padding i;
      len = count_back N p.len p.points h.padding i;
    } };
}

impl<const N: usize> Points<N> {
    pub fn empty() -> Self
        requires { N < 256 }
        ensures { result ≡ [] }
    {
        Points {
            points: [0; N],
            len: 0,
        }
    }

    /// Adds a point after the others, which are all below it.
    pub fn push(&mut self, p: u8)
        requires in_range { p < 99 }
        requires greatest { AllBelow p self.old }
        requires room { length self.old < N }
        ensures { self.new ≡ self.old ++ p ∷ [] }
    {
        self.points[self.len as usize] = p;
        self.len += 1;
    }

    /// Adds a point at its place. Returns false, and changes nothing, where the point is there already.
    pub fn insert(&mut self, p: u8) -> bool
        requires in_range { p < 99 }
        requires room { length self.old < N }
        ensures fresh { OnTrue result (Has self.old p → ⊥) }
        ensures points { OnTrue result ((q : ℕ) → Has self.new q ↔ ((p ≡ q) ⊎ Has self.old q)) }
        ensures len { OnTrue result (length self.new ≡ length self.old + 1) }
        ensures there { OnFalse result (Has self.old p × (self.new ≡ self.old)) }
    {
        let len = self.len as usize;
        let Err(place) = self.points[..len].binary_search(&p) else {
            return false;
        };
        self.points.copy_within(place..len, place + 1);
        self.points[place] = p;
        self.len = (len + 1) as u8;
        true
    }

    pub fn len(&self) -> u64
        ensures len { result ≡ length self.now }
        ensures ascends { Ascends 0 99 self.now }
        ensures short { length self.now ≤ N }
    {
        self.len as u64
    }

    /// The point at a place, from 0.
    pub fn at(&self, i: u64) -> u8
        requires { i < length self.now }
        ensures { result ≡ slice_index self.now i }
    {
        self.points[i as usize]
    }

    pub fn has(&self, p: u8) -> bool
        ensures { IsTrue result ↔ Has self.now p }
    {
        self.points[..self.len as usize].contains(&p)
    }
}
