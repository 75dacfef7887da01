ghost use Rattle.std.specs.Prelude.{◌≡◌, ◌≢◌, ℕ, ◌+◌, ◌-◌, ◌*◌, ◌<◌, ◌≤◌, ◌^◌, min, slice_index, IfSome, None};
ghost use Rattle.lj_base.specs.Bounds.{at_cell};
ghost use Rattle.lj_product.specs.Parts.{AreTails, IsPart, part, part_price};
ghost use Rattle.lj_product.specs.Sides.{AreOffsets, AreSides, AreSmall, HasPrices, IsLeastPart, cell_of};

use crate::choices::PartChoice;
use crate::sides::Sides;
use lj_base::{COST_LIMIT, Frame};

// The price of a part.
fn price_at(
    frame: Frame,
    bounds: &[u64],
    offsets: &[usize; 27],
    s: Sides,
    a: usize,
    b: usize,
    l: usize,
) -> u64
    requires numbers { HasPrices frame bounds.now s }
    requires offsets { AreOffsets frame offsets.now }
    requires sides { AreSides frame s }
    requires part { IsPart (cell_of s) s.v1 (part a b l) }
    ensures price { result ≡ part_price (at_cell frame bounds.now) (cell_of s) s.v1 (part a b l) }
    ensures small { result < 2 ^ 61 }
    ensures single { a ≡ b → result < COST_LIMIT }
{
    let first = bounds[s.first + offsets[l] + b];
    let second = bounds[s.second + offsets[s.k - l] + (s.t - a)];
    first * second
}

// The least price of a part from a to b whose blocks have from low to high points on the first side.
fn least_over_points(
    frame: Frame,
    bounds: &[u64],
    offsets: &[usize; 27],
    s: Sides,
    a: usize,
    b: usize,
    low: usize,
    high: usize,
) -> u64
    requires numbers { HasPrices frame bounds.now s }
    requires offsets { AreOffsets frame offsets.now }
    requires sides { AreSides frame s }
    requires some { low ≤ high }
    requires parts { (l : ℕ) → low ≤ l → l ≤ high → IsPart (cell_of s) s.v1 (part a b l) }
    ensures least { (l : ℕ) → low ≤ l → l ≤ high
        → result ≤ part_price (at_cell frame bounds.now) (cell_of s) s.v1 (part a b l) }
    ensures taken { (l : ℕ) × (low ≤ l) × (l ≤ high)
        × (result ≡ part_price (at_cell frame bounds.now) (cell_of s) s.v1 (part a b l)) }
    ensures small { result < 2 ^ 61 }
    ensures single { a ≡ b → result < COST_LIMIT }
{
    let mut least = price_at(frame, bounds, offsets, s, a, b, low);
    for l in low + 1..high + 1 {
        let price = price_at(frame, bounds, offsets, s, a, b, l);
        least = least.min(price);
    }
    least
}

// The tail at a, from the tails after it.
fn least_starting_at(
    frame: Frame,
    bounds: &[u64],
    offsets: &[usize; 27],
    s: Sides,
    a: usize,
    tails: &[u64; 10],
) -> u64
    requires numbers { HasPrices frame bounds.now s }
    requires offsets { AreOffsets frame offsets.now }
    requires sides { AreSides frame s }
    requires from { s.t - (s.v - s.v1) ≤ a }
    requires to { a ≤ min s.t s.v1 }
    requires small { AreSmall tails.now }
    ensures least { IsLeastPart (at_cell frame bounds.now) (cell_of s) s.v1 a tails.now (min s.t s.v1 + 1) result }
{
    let hi = s.t.min(s.v1);
    let lowest = s.k.saturating_sub(s.v - s.v1);
    let high = s.v1.min(s.k - s.t + a);
    let mut least = least_over_points(frame, bounds, offsets, s, a, a, a.max(lowest), high)
        + tails[a + 1];
    for b in a + 1..hi + 1 {
        let low = b.max(lowest);
        if low <= high {
            let price = least_over_points(frame, bounds, offsets, s, a, b, low, high)
                + tails[b + 1];
            least = least.min(price);
        }
    }
    least
}

/// Fills the array with the tails, from the greatest number of points that a set can have on the first side down to the
/// least. The array is lent, not returned: a copy of what has just been written number by number would hold up the
/// processor.
#[inline(always)]
pub fn fill_tails(
    frame: Frame,
    bounds: &[u64],
    offsets: &[usize; 27],
    s: Sides,
    tails: &mut [u64; 10],
)
    requires numbers { HasPrices frame bounds.now s }
    requires offsets { AreOffsets frame offsets.now }
    requires sides { AreSides frame s }
    ensures tails { AreTails (at_cell frame bounds.now) (cell_of s) s.v1 (s.t - (s.v - s.v1)) tails.new }
    ensures small { AreSmall tails.new }
{
    let lo = s.t.saturating_sub(s.v - s.v1);
    let hi = s.t.min(s.v1);
    *tails = [0; 10];
    for i in 0..hi + 1 - lo {
        let a = hi - i;
        tails[a] = least_starting_at(frame, bounds, offsets, s, a, tails);
    }
}

// The first number, from low to high, of points on the first side with which a part from a to b has, together with the
// tail after it, the wanted price.
fn points_at_price(
    frame: Frame,
    bounds: &[u64],
    offsets: &[usize; 27],
    s: Sides,
    a: usize,
    b: usize,
    low: usize,
    high: usize,
    tail: u64,
    wanted: u64,
) -> Option<usize>
    requires numbers { HasPrices frame bounds.now s }
    requires offsets { AreOffsets frame offsets.now }
    requires sides { AreSides frame s }
    requires parts { (l : ℕ) → low ≤ l → l ≤ high → IsPart (cell_of s) s.v1 (part a b l) }
    requires tail { tail < 2 ^ 62 }
    ensures some { IfSome result (λ l. (low ≤ l) × (l ≤ high)
        × (wanted ≡ part_price (at_cell frame bounds.now) (cell_of s) s.v1 (part a b l) + tail)) }
    ensures none { result ≡ None → (l : ℕ) → low ≤ l → l ≤ high
        → wanted ≢ part_price (at_cell frame bounds.now) (cell_of s) s.v1 (part a b l) + tail }
{
    for l in low..high + 1 {
        if price_at(frame, bounds, offsets, s, a, b, l) + tail == wanted {
            return Some(l);
        }
    }
    None
}

/// A part that begins with a, whose price and the tail after it make the tail at a.
pub fn part_at_price(
    frame: Frame,
    bounds: &[u64],
    offsets: &[usize; 27],
    s: Sides,
    a: usize,
    tails: &[u64; 10],
) -> PartChoice
    requires numbers { HasPrices frame bounds.now s }
    requires offsets { AreOffsets frame offsets.now }
    requires sides { AreSides frame s }
    requires from { s.t - (s.v - s.v1) ≤ a }
    requires to { a ≤ min s.t s.v1 }
    requires small { AreSmall tails.now }
    requires tails { AreTails (at_cell frame bounds.now) (cell_of s) s.v1 (s.t - (s.v - s.v1)) tails.now }
    ensures part { IsPart (cell_of s) s.v1 (part result.a result.b result.l) }
    ensures first { result.a ≡ a }
    ensures price { slice_index tails.now a
        ≡ part_price (at_cell frame bounds.now) (cell_of s) s.v1 (part result.a result.b result.l)
        + slice_index tails.now (result.b + 1) }
{
    let hi = s.t.min(s.v1);
    let lowest = s.k.saturating_sub(s.v - s.v1);
    let high = s.v1.min(s.k - s.t + a);
    for b in a..hi + 1 {
        let low = b.max(lowest);
        if let Some(l) = points_at_price(
            frame,
            bounds,
            offsets,
            s,
            a,
            b,
            low,
            high,
            tails[b + 1],
            tails[a],
        ) {
            return PartChoice {
                a: a as u8,
                b: b as u8,
                l: l as u8,
            };
        }
    }
    unreachable!()
}
