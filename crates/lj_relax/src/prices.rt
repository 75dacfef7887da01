ghost use Rattle.std.specs.Prelude.{◌≡◌, ◌≤◌, ◌⊎◌, ℕ, All, IfSome, IsTrue, List, None, [], false};
ghost use Rattle.lj_base.specs.Bounds.{AreBounds, at_cell};
ghost use Rattle.lj_base.specs.Frames.{InFrame};
ghost use Rattle.lj_base.specs.declared.Row.{Row};
ghost use Rattle.lj_cover.specs.Instances.{IsInstance, price, row_price};
ghost use Rattle.lj_cover.specs.Rules.{Part, Rule, Product};
ghost use Rattle.lj_induced.specs.Rows.{IsRowAt};
ghost use Rattle.lj_relax.specs.Found.{IsFound, IsLeastFound, found_cost};
ghost use Rattle.lj_relax.specs.Steps.{IsAtMost, IsBelow, IsLeastPrice, IsPrice};
ghost use Rattle.lj_relax.specs.Tickets.{snapshot};
ghost use Rattle.lj_rules.specs.Elementary.{IsElementary};

use crate::found::Found;
use lj_base::{Cell, Frame, Row};
use lj_induced::best_induced;
use lj_product::{best_product, best_product_below, best_product_price};
use lj_rules::best_elementary;

/// The least price of an elementary rule, a product or a row at the cell: that of `least_instance`, without the parts
/// of its product, which it need not find. It takes no memory.
pub fn least_price(frame: Frame, bounds: &[u64], rows: &[Row], cell: Cell) -> Option<u64>
    requires inside { InFrame frame cell }
    requires bounds { AreBounds frame bounds.now }
    requires rows { All (IsRowAt frame cell) rows.now }
    ensures { IsLeastPrice frame (snapshot frame cell bounds.now rows.now) result }
{
    let elementary = least_elementary(frame, bounds, cell).cost();
    let product = product_price(frame, bounds, cell);
    let induced = least_induced(frame, bounds, rows, cell).cost();
    lesser(lesser(elementary, product), induced)
}

// The least price of a product.
fn product_price(frame: Frame, bounds: &[u64], cell: Cell) -> Option<u64>
    requires inside { InFrame frame cell }
    requires bounds { AreBounds frame bounds.now }
    ensures price { (rows : List Row) → IfSome result (IsPrice frame (snapshot frame cell bounds.now rows)) }
    ensures least { (v1 : ℕ) (parts : List Part) → IsInstance frame [] cell (Product cell v1 parts)
        → IsAtMost result (price (at_cell frame bounds.now) (Product cell v1 parts)) }
{
    best_product_price(frame, bounds, cell)
}

// The lesser of two prices.
fn lesser(first: Option<u64>, second: Option<u64>) -> Option<u64>
    ensures one { (result ≡ first) ⊎ (result ≡ second) }
    ensures first { (n : ℕ) → IsAtMost first n → IsAtMost result n }
    ensures second { (n : ℕ) → IsAtMost second n → IsAtMost result n }
{
    match (first, second) {
        (Some(f), Some(s)) => Some(f.min(s)),
        (Some(_), None) => first,
        (None, _) => second,
    }
}

/// An elementary rule, a product or a row of least price at the cell. It takes no memory.
pub fn least_instance(frame: Frame, bounds: &[u64], rows: &[Row], cell: Cell) -> Found
    requires inside { InFrame frame cell }
    requires bounds { AreBounds frame bounds.now }
    requires rows { All (IsRowAt frame cell) rows.now }
    ensures { IsLeastFound frame (snapshot frame cell bounds.now rows.now) result }
{
    let elementary = least_elementary(frame, bounds, cell);
    let product = least_product(frame, bounds, cell);
    let induced = least_induced(frame, bounds, rows, cell);
    cheaper(cheaper(elementary, product), induced)
}

/// `least_instance`, where its price is below the limit; else the parts of a product need not be found.
pub fn instance_below(
    frame: Frame,
    bounds: &[u64],
    rows: &[Row],
    cell: Cell,
    limit: u64,
) -> Option<Found>
    requires inside { InFrame frame cell }
    requires bounds { AreBounds frame bounds.now }
    requires rows { All (IsRowAt frame cell) rows.now }
    ensures least { IfSome result (IsLeastFound frame (snapshot frame cell bounds.now rows.now)) }
    ensures below { IfSome result (λ found. IsBelow (found_cost found) limit) }
    ensures none { result ≡ None → (n : ℕ) → IsPrice frame (snapshot frame cell bounds.now rows.now) n → limit ≤ n }
{
    let elementary = least_elementary(frame, bounds, cell);
    let product = product_below(frame, bounds, cell, limit);
    let induced = least_induced(frame, bounds, rows, cell);
    let found = cheaper(cheaper(elementary, product), induced);
    if is_below(&found, limit) {
        Some(found)
    } else {
        None
    }
}

// Whether what was found costs less than the limit.
fn is_below(found: &Found, limit: u64) -> bool
    ensures below { IsTrue result → IsBelow (found_cost found.now) limit }
    ensures yes { IsTrue result → (n : ℕ) → limit ≤ n → IsAtMost (found_cost found.now) n }
    ensures no { result ≡ false → (n : ℕ) → IsAtMost (found_cost found.now) n → limit ≤ n }
{
    match found.cost() {
        Some(cost) => cost < limit,
        None => false,
    }
}

// A product of least price, where that is below the limit.
fn product_below(frame: Frame, bounds: &[u64], cell: Cell, limit: u64) -> Found
    requires inside { InFrame frame cell }
    requires bounds { AreBounds frame bounds.now }
    ensures instance { (rows : List Row) → IsFound frame (snapshot frame cell bounds.now rows) result }
    ensures least { (v1 : ℕ) (parts : List Part) → IsInstance frame [] cell (Product cell v1 parts)
        → IsAtMost (found_cost result) (price (at_cell frame bounds.now) (Product cell v1 parts))
        ⊎ (limit ≤ price (at_cell frame bounds.now) (Product cell v1 parts)) }
{
    match best_product_below(frame, bounds, cell, limit) {
        Some(choice) => Found::Product { choice },
        None => Found::Nothing,
    }
}

// An elementary rule of least price.
fn least_elementary(frame: Frame, bounds: &[u64], cell: Cell) -> Found
    requires inside { InFrame frame cell }
    requires bounds { AreBounds frame bounds.now }
    ensures instance { (rows : List Row) → IsFound frame (snapshot frame cell bounds.now rows) result }
    ensures least { (r : Rule) → IsElementary r → IsInstance frame [] cell r
        → IsAtMost (found_cost result) (price (at_cell frame bounds.now) r) }
{
    match best_elementary(frame, bounds, cell) {
        Some(choice) => Found::Elementary { choice },
        None => Found::Nothing,
    }
}

// A product of least price.
fn least_product(frame: Frame, bounds: &[u64], cell: Cell) -> Found
    requires inside { InFrame frame cell }
    requires bounds { AreBounds frame bounds.now }
    ensures instance { (rows : List Row) → IsFound frame (snapshot frame cell bounds.now rows) result }
    ensures least { (v1 : ℕ) (parts : List Part) → IsInstance frame [] cell (Product cell v1 parts)
        → IsAtMost (found_cost result) (price (at_cell frame bounds.now) (Product cell v1 parts)) }
{
    match best_product(frame, bounds, cell) {
        Some(choice) => Found::Product { choice },
        None => Found::Nothing,
    }
}

// A row of least price.
fn least_induced(frame: Frame, bounds: &[u64], rows: &[Row], cell: Cell) -> Found
    requires inside { InFrame frame cell }
    requires bounds { AreBounds frame bounds.now }
    requires rows { All (IsRowAt frame cell) rows.now }
    ensures instance { IsFound frame (snapshot frame cell bounds.now rows.now) result }
    ensures least { All (λ (row : Row). IsAtMost (found_cost result)
        (row_price (at_cell frame bounds.now) cell row.counts)) rows.now }
{
    match best_induced(frame, bounds, rows, cell) {
        Some(choice) => Found::Induced { choice },
        None => Found::Nothing,
    }
}

// The cheaper of two instances, and the first where they cost the same.
fn cheaper(first: Found, second: Found) -> Found
    ensures one { (result ≡ first) ⊎ (result ≡ second) }
    ensures first { (n : ℕ) → IsAtMost (found_cost first) n → IsAtMost (found_cost result) n }
    ensures second { (n : ℕ) → IsAtMost (found_cost second) n → IsAtMost (found_cost result) n }
{
    match (first.cost(), second.cost()) {
        (Some(f), Some(s)) => { if s < f { second } else { first } }
        (Some(_), None) => first,
        (None, _) => second,
    }
}
