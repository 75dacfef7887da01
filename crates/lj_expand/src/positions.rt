ghost use Rattle.std.specs.Prelude.{◌≡◌, ◌+◌, ◌*◌, ◌<◌, ◌≤◌, length};
ghost use Rattle.std.specs.List.{AllByRecursion};
ghost use Rattle.lj_cover.specs.Derivations.{tree_cost};
ghost use Rattle.lj_deriv.specs.Nodes.{step_tree};
ghost use Rattle.lj_deriv.specs.Positions.{before};
ghost use Rattle.lj_expand.specs.Expansions.{factors_of};
ghost use Rattle.lj_expand.specs.Positions.{IsLastCount, IsPartSpot, IsSourced, IsSpot, cost_of_parts};

use lj_base::COST_LIMIT;
use lj_cover::laws::{blockwise_rules_join, expansion_covers};
use lj_deriv::laws::before_law;
use lj_deriv::{Part, Plan};

/// A place, and an offset in what is there.
#[derive(Clone, Copy)]
pub(crate) struct Spot {
    pub(crate) place: u64,
    pub(crate) offset: u64,
}

/// The block of the node's source that gives the node's `i`-th block. It is one of the 64 after the last count.
pub(crate) fn spot_of(plan: &Plan, node: u64, i: u64) -> Spot
    requires there { node < length plan.now.rules }
    requires sourced { IsSourced (step_tree plan.now node) }
    requires below { i < tree_cost (step_tree plan.now node) }
    ensures { IsSpot (step_tree plan.now node) i result.place result.offset }
{
    before_law();
    blockwise_rules_join();
    let count = last_count(plan, node, i);
    let end = (plan.source(node).len() as u64).min(64 * count + 64);
    let mut offset = i - plan.before(node, count);
    for place in 64 * count..end {
        let share = plan.share(node, place);
        if offset < share {
            return Spot { place, offset };
        }
        offset -= share;
    }
    unreachable!()
}

// The last of the node's running counts that is at most `i`, found by halving.
fn last_count(plan: &Plan, node: u64, i: u64) -> u64
    requires there { node < length plan.now.rules }
    ensures { IsLastCount (step_tree plan.now node) i result }
{
    let mut low = 0;
    let mut high = plan.source(node).len() as u64 / 64 + 1;
    while low + 1 < high {
        let middle = low + (high - low) / 2;
        if plan.before(node, middle) <= i {
            low = middle;
        } else {
            high = middle;
        }
    }
    low
}

/// The part that gives the `i`-th block of a product.
pub(crate) fn part_spot(plan: &Plan, parts: &[Part], i: u64) -> Spot
    requires there { AllByRecursion (λ j. j < length plan.now.rules) (factors_of parts.now) }
    requires below { i < cost_of_parts plan.now parts.now }
    requires small { cost_of_parts plan.now parts.now < COST_LIMIT }
    ensures { IsPartSpot plan.now parts.now i result.place result.offset }
{
    expansion_covers();
    let mut offset = i;
    for place in 0..parts.len() {
        let part = parts[place];
        let cost = plan.cost_of(part.first) * plan.cost_of(part.second);
        if offset < cost {
            return Spot {
                place: place as u64,
                offset,
            };
        }
        offset -= cost;
    }
    unreachable!()
}
