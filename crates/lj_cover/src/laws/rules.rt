ghost use Rattle.std.specs.Prelude.{◌≡◌, ℕ, ◌+◌, ◌-◌, ◌<◌, ◌≤◌, ◌⊎◌, List, [], ◌∷◌, ◌++◌, map, length};
ghost use Rattle.std.specs.List.{AllByRecursion, AllZip, flat_map, sum_by};
ghost use Rattle.lj_base.specs.Blocks.{Covers};
ghost use Rattle.lj_base.specs.Cells.{Triple};
ghost use Rattle.lj_base.specs.Colex.{choose, sets};
ghost use Rattle.lj_cover.specs.BlockLists.{add_blocks, ceil_div, derived_blocks, derived2_blocks};
ghost use Rattle.lj_cover.specs.BlockLists.{drop_blocks, grow_blocks, induced_blocks, one_block, product_blocks};
ghost use Rattle.lj_cover.specs.BlockLists.{run_blocks};
ghost use Rattle.lj_cover.specs.Derivations.{IsSound};
ghost use Rattle.lj_cover.specs.Instances.{IsStep};
ghost use Rattle.lj_cover.specs.Rules.{Chain, Part, Rule, Splits, cut_cells, part_cells, rule_blocks, rule_cell};
ghost use Rattle.lj_cover.specs.Rules.{rule_children};
ghost use Rattle.lj_cover.specs.Rules.{rule_cost, triple};
ghost use Rattle.lj_cover.specs.Sources.{IsBlockwise, gives, share, source};

/// One block covers where sets have no point or a block has every point.
pub fn one_covers()
    ensures { (v k t : ℕ) → k ≤ v → (t ≡ 0) ⊎ (k ≡ v) → Covers (one_block k) (triple v k t) }
{}

/// Runs cover the sets of one point.
pub fn runs_cover()
    ensures covers { (v k : ℕ) → 1 ≤ k → k ≤ v → Covers (run_blocks v k) (triple v k 1) }
    ensures counts { (v k : ℕ) → length (run_blocks v k) ≡ ceil_div v k }
{}

/// All blocks cover the sets that are as large as blocks.
pub fn all_cover()
    ensures covers { (v k : ℕ) → Covers (sets v k) (triple v k k) }
    ensures counts { (v k : ℕ) → length (sets v k) ≡ choose v k }
{}

/// The blocks through a point cover, without it, the other points.
pub fn derived_covers()
    ensures { (v k t x : ℕ) (bs : List (List ℕ)) → 1 ≤ t → x < v → Covers bs (triple v k t)
        → Covers (derived_blocks x bs) (triple (v - 1) (k - 1) (t - 1)) }
{}

/// The blocks through two points cover, without them, the other points.
pub fn derived2_covers()
    ensures { (v k t x y : ℕ) (bs : List (List ℕ)) → 2 ≤ t → x < y → y < v → Covers bs (triple v k t)
        → Covers (derived2_blocks x y bs) (triple (v - 2) (k - 2) (t - 2)) }
{}

/// A covering gives one of one point less.
pub fn drop_covers()
    ensures { (v k t : ℕ) (bs : List (List ℕ)) → k ≤ v → Covers bs (triple (v + 1) k t)
        → Covers (drop_blocks v bs) (triple v k t) }
{}

/// A covering gives one of one point more, which each block gets.
pub fn add_covers()
    ensures { (v k t : ℕ) (bs : List (List ℕ)) → t < k → k ≤ v → Covers bs (triple (v - 1) (k - 1) t)
        → Covers (add_blocks (v - 1) bs) (triple v k t) }
{}

/// A covering gives one by larger blocks.
pub fn grow_covers()
    ensures { (v k t : ℕ) (bs : List (List ℕ)) → t < k → k ≤ v → Covers bs (triple v (k - 1) t)
        → Covers (grow_blocks k bs) (triple v k t) }
{}

/// A covering covers the smaller sets too.
pub fn lower_covers()
    ensures { (v k t : ℕ) (bs : List (List ℕ)) → t < k → k ≤ v → Covers bs (triple v k (t + 1))
        → Covers bs (triple v k t) }
{}

/// The product covers where the two lists of each part cover the part's cells: a set with `j` points on the first side
/// is in a union of the part that serves `j`.
pub fn product_covers()
    ensures { (c : Triple) (v1 : ℕ) (parts : List Part) (lists : List (List (List ℕ))) → Splits c v1 parts
        → AllZip Covers lists (flat_map (part_cells c v1) parts) → Covers (product_blocks v1 lists) c }
{}

/// The cuts of a covering's blocks, brought to `k` points, cover where the lists for the larger cuts cover.
pub fn induced_covers()
    ensures { (v m k w t : ℕ) (bs : List (List ℕ)) (lists : List (List (List ℕ))) → k ≤ w → w ≤ v
        → Covers bs (triple v m t) → AllZip Covers lists (cut_cells t k w bs)
        → Covers (induced_blocks t k w lists bs) (triple w k t) }
{}

/// Each rule covers its cell where its children's lists cover theirs, with as many blocks as it costs.
pub fn rule_covers()
    ensures covers { (r : Rule) (lists : List (List (List ℕ))) → IsSound r → AllZip Covers lists (rule_children r)
        → Covers (rule_blocks r lists) (rule_cell r) }
    ensures counts { (r : Rule) (lists : List (List (List ℕ)))
        → length (rule_blocks r lists) ≡ rule_cost r (map length lists) }
{}

/// A rule that goes through the blocks of an upload has, one after another, the blocks that each of them gives, and
/// costs the sum of their shares. For the other rules the sum is 0.
pub fn blockwise_rules_join()
    ensures blocks { (r : Rule) (lists : List (List (List ℕ))) → IsBlockwise r
        → rule_blocks r lists ≡ flat_map (gives r lists) (source r) }
    ensures cost { (r : Rule) (ns : List ℕ) → IsBlockwise r → rule_cost r ns ≡ sum_by (share r ns) (source r) }
    ensures shares { (r : Rule) (lists : List (List (List ℕ))) (b : List ℕ)
        → length (gives r lists b) ≡ share r (map length lists) b }
    ensures within { (r : Rule) (ns : List ℕ) → sum_by (share r ns) (source r) ≤ rule_cost r ns }
{}

/// A rule either has children or an upload that is cut, or it has no children and its cost is its own.
pub fn bases_have_no_children()
    ensures either { (r : Rule) → IsStep r ⊎ (IsStep r → ⊥) }
    ensures children { (r : Rule) → (IsStep r → ⊥) → rule_children r ≡ [] }
    ensures cost { (r : Rule) (ns : List ℕ) → (IsStep r → ⊥) → rule_cost r ns ≡ rule_cost r [] }
{}

/// The parts of a chain lie between its ends, the last reaches the upper end, and there are at most as many parts as
/// numbers; two chains of which the second begins after the first are one.
pub fn chains_have_ends()
    ensures order { (lo hi : ℕ) (parts : List Part) → Chain lo hi parts → lo ≤ hi + 1 }
    ensures within { (lo hi : ℕ) (parts : List Part) → Chain lo hi parts
        → AllByRecursion (λ p. (lo ≤ p.a) × (p.a ≤ p.b) × (p.b ≤ hi)) parts }
    ensures last { (lo hi : ℕ) (parts : List Part) (p : Part) → Chain lo hi (parts ++ p ∷ []) → p.b ≡ hi }
    ensures few { (lo hi : ℕ) (parts : List Part) → Chain lo hi parts → lo + length parts ≤ hi + 1 }
    ensures joined { (lo mid hi : ℕ) (parts others : List Part) → Chain lo mid parts → Chain (mid + 1) hi others
        → Chain lo hi (parts ++ others) }
{}
