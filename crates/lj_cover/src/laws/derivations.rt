ghost use Rattle.std.specs.Prelude.{◌≡◌, ℕ, ◌≤◌, ◌↔◌, List, ◌++◌, length};
ghost use Rattle.std.specs.List.{AllByRecursion, Contains};
ghost use Rattle.lj_base.specs.Blocks.{Covers};
ghost use Rattle.lj_base.specs.Cells.{Triple};
ghost use Rattle.lj_base.specs.Frames.{InFrame, Top};
ghost use Rattle.lj_cover.specs.Derivations.{Derivable, DerivableIn, EachRules, IsDerivation, IsFrom, IsIn, IsLeast};
ghost use Rattle.lj_cover.specs.Derivations.{Tree, Trees, expand, root_cell, root_cells, tree_cost};
ghost use Rattle.lj_cover.specs.Instances.{IsInstance};
ghost use Rattle.lj_cover.specs.Lower.{schonheim};
ghost use Rattle.lj_cover.specs.Rules.{ForUpload, Rule, Upload, rule_cell, triple};
ghost use Rattle.lj_cover.specs.Uses.{DerivableBy};

/// The expansion law: the blocks of a derivation cover its cell and are as many as it costs. So each derivable number
/// is the size of a covering.
pub fn expansion_covers()
    ensures covers { (d : Tree) → IsDerivation d → Covers (expand d) (root_cell d) }
    ensures counts { (d : Tree) → length (expand d) ≡ tree_cost d }
    ensures derivable { (c : Triple) (n : ℕ) → Derivable c n
        → (bs : List (List ℕ)) × Covers bs c × (length bs ≡ n) }
{}

/// What covers has a block, as there is a set to cover. So no derivation is free.
pub fn costs_are_positive()
    ensures covering { (c : Triple) (bs : List (List ℕ)) → c.t ≤ c.v → Covers bs c → 1 ≤ length bs }
    ensures derivation { (d : Tree) → IsDerivation d → 1 ≤ tree_cost d }
    ensures derivable { (c : Triple) (n : ℕ) → Derivable c n → 1 ≤ n }
{}

/// The least cost is one number, and the order and repeats of the uploads do not matter to it.
pub fn least_is_one()
    ensures one { (frame : Top) (c : Triple) (uploads : List Upload) (m n : ℕ)
        → IsLeast frame uploads c m → IsLeast frame uploads c n → m ≡ n }
    ensures by_members { (frame : Top) (c : Triple) (uploads others : List Upload) (n : ℕ)
        → ((u : Upload) → Contains uploads u ↔ Contains others u)
        → IsLeast frame uploads c n → IsLeast frame others c n }
{}

/// What is made from uploads is made from more uploads too, so with more of them the least cost does not rise.
/// For other facts of each upload than that it is one of a list, see the definitions' `DerivableBy`.
pub fn more_uploads_derive()
    ensures rule { (uploads others : List Upload) (r : Rule) → ((u : Upload) → Contains uploads u → Contains others u)
        → ForUpload (Contains uploads) r → ForUpload (Contains others) r }
    ensures instance { (frame : Top) (uploads others : List Upload) (c : Triple) (r : Rule)
        → ((u : Upload) → Contains uploads u → Contains others u)
        → IsInstance frame uploads c r → IsInstance frame others c r }
    ensures derivation { (uploads others : List Upload) (d : Tree)
        → ((u : Upload) → Contains uploads u → Contains others u) → IsFrom uploads d → IsFrom others d }
    ensures derivable { (frame : Top) (uploads others : List Upload) (c : Triple) (n : ℕ)
        → ((u : Upload) → Contains uploads u → Contains others u)
        → DerivableIn frame uploads c n → DerivableIn frame others c n }
    ensures appended { (frame : Top) (uploads others : List Upload) (c : Triple) (n : ℕ)
        → DerivableIn frame uploads c n → DerivableIn frame (uploads ++ others) c n }
    ensures least { (frame : Top) (uploads others : List Upload) (c : Triple) (m n : ℕ)
        → ((u : Upload) → Contains uploads u → Contains others u)
        → IsLeast frame uploads c m → IsLeast frame others c n → n ≤ m }
{}

/// A derivation in a frame has its cell there; what is derivable in a frame from uploads is derivable.
pub fn derivations_stay_inside()
    ensures root { (frame : Top) (d : Tree) → IsIn frame d → InFrame frame (root_cell d) }
    ensures roots { (frame : Top) (ds : Trees) → EachRules (λ r. InFrame frame (rule_cell r)) ds
        → AllByRecursion (InFrame frame) (root_cells ds) }
    ensures derivable { (frame : Top) (uploads : List Upload) (c : Triple) (n : ℕ)
        → DerivableIn frame uploads c n → Derivable c n }
    ensures members { (frame : Top) (uploads : List Upload) (c : Triple) (n : ℕ)
        → DerivableIn frame uploads c n ↔ DerivableBy frame (Contains uploads) c n }
{}

/// No covering, and so no derivation, has fewer blocks than the lower number.
pub fn schonheim_bounds()
    ensures covering { (v k t : ℕ) (bs : List (List ℕ)) → t ≤ k → k ≤ v → Covers bs (triple v k t)
        → schonheim v k t ≤ length bs }
    ensures derivable { (c : Triple) (n : ℕ) → Derivable c n → schonheim c.v c.k c.t ≤ n }
{}
