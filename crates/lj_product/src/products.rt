ghost use Rattle.std.specs.Prelude.{◌≡◌, ℕ, ◌<◌, ◌≤◌, ◌↔◌, List, IfSome, None, []};
ghost use Rattle.lj_base.specs.Cells.{IsCell};
ghost use Rattle.lj_base.specs.Frames.{InFrame};
ghost use Rattle.lj_base.specs.Bounds.{AreBounds, at_cell};
ghost use Rattle.lj_cover.specs.Instances.{IsInstance, price};
ghost use Rattle.lj_cover.specs.Rules.{Part, Product, Splits, triple};
ghost use Rattle.lj_product.specs.Products.{IsLeastProduct, IsLeastProductPrice, IsLeastSplit, IsProductChoice};
ghost use Rattle.lj_product.specs.Sides.{AreOffsets, AreSides, cell_of};

use crate::choices::{PartChoice, ProductChoice};
use crate::parts::{fill_tails, part_at_price};
use crate::sides::Sides;
use lj_base::{Cell, Frame, choose_law, choose_product_law, index_law};

/// The product of least price at the cell: over all ways to split its points in two, to cut the numbers of points that
/// a set can have on the first side into intervals, and to choose for each interval how many points its blocks have
/// there. A cell of one point has no product. It takes no memory. The time is that of reading the prices of all parts
/// for half of the ways to split the points, since a product whose sides change places has the same price.
pub fn best_product(frame: Frame, bounds: &[u64], cell: Cell) -> Option<ProductChoice>
    requires inside { InFrame frame cell }
    requires bounds { AreBounds frame bounds.now }
    ensures least { IfSome result (IsLeastProduct frame (at_cell frame bounds.now) cell) }
    ensures none { (result ≡ None) ↔ (cell.v ≡ 1) }
{
    let offsets = frame.row_offsets();
    let (sides, _) = best_split(frame, bounds, offsets, cell)?;
    Some(choice_with(frame, bounds, offsets, sides))
}

/// The price of `best_product`, without its parts, which it need not find.
pub fn best_product_price(frame: Frame, bounds: &[u64], cell: Cell) -> Option<u64>
    requires inside { InFrame frame cell }
    requires bounds { AreBounds frame bounds.now }
    ensures least { IfSome result (IsLeastProductPrice frame (at_cell frame bounds.now) cell) }
    ensures none { (result ≡ None) ↔ (cell.v ≡ 1) }
{
    let offsets = frame.row_offsets();
    let (_, price) = best_split(frame, bounds, offsets, cell)?;
    Some(price)
}

/// `best_product`, where its price is below the limit; else its parts need not be found.
pub fn best_product_below(
    frame: Frame,
    bounds: &[u64],
    cell: Cell,
    limit: u64,
) -> Option<ProductChoice>
    requires inside { InFrame frame cell }
    requires bounds { AreBounds frame bounds.now }
    ensures least { IfSome result (IsLeastProduct frame (at_cell frame bounds.now) cell) }
    ensures below { IfSome result (λ choice. choice.cost < limit) }
    ensures none { result ≡ None → (v1 : ℕ) (parts : List Part) → IsInstance frame [] cell (Product cell v1 parts)
        → limit ≤ price (at_cell frame bounds.now) (Product cell v1 parts) }
{
    let offsets = frame.row_offsets();
    let (sides, price) = best_split(frame, bounds, offsets, cell)?;
    if price < limit {
        Some(choice_with(frame, bounds, offsets, sides))
    } else {
        None
    }
}

// The sides of a product of least price at the cell, and that price.
fn best_split(
    frame: Frame,
    bounds: &[u64],
    offsets: &[usize; 27],
    cell: Cell,
) -> Option<(Sides, u64)>
    requires inside { InFrame frame cell }
    requires bounds { AreBounds frame bounds.now }
    requires offsets { AreOffsets frame offsets.now }
    ensures least { IfSome result (λ best. IsLeastSplit frame (at_cell frame bounds.now) cell best.0 best.1) }
    ensures none { (result ≡ None) ↔ (cell.v ≡ 1) }
{
    let (v, k, t) = numbers_of(frame, cell);
    if v < 2 {
        return None;
    }
    Some(least_split(frame, bounds, offsets, v, k, t))
}

fn numbers_of(frame: Frame, cell: Cell) -> (usize, usize, usize)
    requires inside { InFrame frame cell }
    ensures cell { triple result.0 result.1 result.2 ≡ cell }
    ensures limits { IsCell frame.top }
    ensures v { result.0 ≡ cell.v }
{
    let _ = frame.top.v;
    (cell.v as usize, cell.k as usize, cell.t as usize)
}

// The sides and the price for a cell of two points or more. The first side has at most half of the points.
fn least_split(
    frame: Frame,
    bounds: &[u64],
    offsets: &[usize; 27],
    v: usize,
    k: usize,
    t: usize,
) -> (Sides, u64)
    requires bounds { AreBounds frame bounds.now }
    requires offsets { AreOffsets frame offsets.now }
    requires inside { InFrame frame (triple v k t) }
    requires more { 2 ≤ v }
    ensures { IsLeastSplit frame (at_cell frame bounds.now) (triple v k t) result.0 result.1 }
{
    let mut s = Sides::of(frame, v, k, t, 1);
    let mut split = s;
    let mut least = least_with(frame, bounds, offsets, s);
    for v1 in 2..v / 2 + 1 {
        s = s.shifted(frame, offsets);
        let cost = least_with(frame, bounds, offsets, s);
        if cost < least {
            least = cost;
            split = s;
        }
    }
    (split, least)
}

// The least price of a product with these sides.
fn least_with(frame: Frame, bounds: &[u64], offsets: &[usize; 27], s: Sides) -> u64
    requires bounds { AreBounds frame bounds.now }
    requires offsets { AreOffsets frame offsets.now }
    requires sides { AreSides frame s }
    ensures least { (parts : List Part) → Splits (cell_of s) s.v1 parts
        → result ≤ price (at_cell frame bounds.now) (Product (cell_of s) s.v1 parts) }
    ensures taken { (parts : List Part) × Splits (cell_of s) s.v1 parts
        × (price (at_cell frame bounds.now) (Product (cell_of s) s.v1 parts) ≡ result) }
{
    index_law();
    choose_law();
    choose_product_law();
    let mut tails = [0; 10];
    fill_tails(frame, bounds, offsets, s, &mut tails);
    tails[s.t.saturating_sub(s.v - s.v1)]
}

// A product of least price with these sides.
fn choice_with(frame: Frame, bounds: &[u64], offsets: &[usize; 27], s: Sides) -> ProductChoice
    requires bounds { AreBounds frame bounds.now }
    requires offsets { AreOffsets frame offsets.now }
    requires sides { AreSides frame s }
    ensures v1 { result.v1 ≡ s.v1 }
    ensures chosen { IsProductChoice frame (at_cell frame bounds.now) (cell_of s) result }
    ensures least { (parts : List Part) → Splits (cell_of s) s.v1 parts
        → result.cost ≤ price (at_cell frame bounds.now) (Product (cell_of s) s.v1 parts) }
{
    index_law();
    choose_law();
    choose_product_law();
    let mut tails = [0; 10];
    fill_tails(frame, bounds, offsets, s, &mut tails);
    let lo = s.t.saturating_sub(s.v - s.v1);
    let hi = s.t.min(s.v1);
    let mut parts = [PartChoice { a: 0, b: 0, l: 0 }; 9];
    let mut count = 0;
    let mut a = lo;
    while a <= hi {
        let part = part_at_price(frame, bounds, offsets, s, a, &tails);
        parts[count] = part;
        count += 1;
        a = part.b as usize + 1;
    }
    ProductChoice {
        v1: s.v1 as u8,
        parts,
        count: count as u8,
        cost: tails[lo],
    }
}
