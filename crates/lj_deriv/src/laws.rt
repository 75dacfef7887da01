ghost use Rattle.std.specs.Prelude.{◌≡◌, ℕ, ◌+◌, ◌<◌, ◌≤◌, List, [], ◌∷◌, ◌++◌, length};
ghost use Rattle.lj_cover.specs.Derivations.{Tree, Trees, node, tree_cost};
ghost use Rattle.lj_cover.specs.Rules.{Rule, Upload};
ghost use Rattle.lj_cover.specs.Sources.{IsBlockwise, source};
ghost use Rattle.lj_deriv.specs.Nodes.{build, trees_of};
ghost use Rattle.lj_deriv.specs.Positions.{before, source_at, tree_share, tree_source};
ghost use Rattle.lj_deriv.specs.declared.rules.Rule.{Rule as NodeRule};

use lj_cover::laws::blockwise_rules_join;

/// How many blocks the first blocks of a source give: never more than the derivation costs, with each block of the
/// source its share more, and with all of them as many as the derivation costs.
pub fn before_law()
    ensures within { (d : Tree) (n : ℕ) → before d n ≤ tree_cost d }
    ensures more { (d : Tree) (n : ℕ) → n < length (tree_source d)
        → before d (n + 1) ≡ before d n + tree_share d (source_at d n) }
    ensures grows { (d : Tree) (m n : ℕ) → m ≤ n → before d m ≤ before d n }
    ensures whole { (r : Rule) (ds : Trees) → IsBlockwise r
        → before (node r ds) (length (source r)) ≡ tree_cost (node r ds) }
{
    blockwise_rules_join();
}

/// There is one derivation for each node; one node more has that of its rule over the nodes before it, and those of the
/// others stay.
pub fn trees_law()
    ensures count { (us : List Upload) (rs : List NodeRule) → length (trees_of us rs) ≡ length rs }
    ensures push { (us : List Upload) (rs : List NodeRule) (r : NodeRule)
        → trees_of us (rs ++ r ∷ []) ≡ trees_of us rs ++ build us (trees_of us rs) r ∷ [] }
    ensures first { (us : List Upload) → trees_of us [] ≡ [] }
{}
