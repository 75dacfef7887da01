//! The laws of products. Each function does nothing: its contract is the law.

ghost use Rattle.std.specs.Prelude.{◌≡◌, ℕ, ◌-◌, ◌<◌, ◌≤◌, List, slice_index};
ghost use Rattle.lj_base.specs.Cells.{IsCell, Triple};
ghost use Rattle.lj_cover.specs.Instances.{price};
ghost use Rattle.lj_cover.specs.Rules.{Part, Product, Splits};
ghost use Rattle.lj_product.specs.Parts.{AreTails};

/// A product whose two sides change places has the same price.
pub fn sides_change()
    ensures { (bounds : Triple → ℕ) (c : Triple) (v1 : ℕ) (parts : List Part) → c.t ≤ c.k → c.k ≤ c.v
        → Splits c v1 parts → (others : List Part) × Splits c (c.v - v1) others
        × (price bounds (Product c (c.v - v1) others) ≡ price bounds (Product c v1 parts)) }
{}

/// The least prices of parts that serve the sets with at least some number of points on the first side, found one after
/// the other from the greatest number down, end with the least price of a product: no way to cut the numbers into
/// intervals costs less, and one costs that.
pub fn tails_are_least()
    ensures least { (bounds : Triple → ℕ) (c : Triple) (v1 : ℕ) (tails : List ℕ)
        → AreTails bounds c v1 (c.t - (c.v - v1)) tails → (parts : List Part) → Splits c v1 parts
        → slice_index tails (c.t - (c.v - v1)) ≤ price bounds (Product c v1 parts) }
    ensures taken { (bounds : Triple → ℕ) (c : Triple) (v1 : ℕ) (tails : List ℕ) → IsCell c → 1 ≤ v1 → v1 < c.v
        → AreTails bounds c v1 (c.t - (c.v - v1)) tails
        → (parts : List Part) × Splits c v1 parts
        × (price bounds (Product c v1 parts) ≡ slice_index tails (c.t - (c.v - v1))) }
{}
