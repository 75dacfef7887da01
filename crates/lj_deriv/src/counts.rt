ghost use Rattle.std.specs.Prelude.{◌≡◌, ℕ, ◌+◌, ◌*◌, ◌/◌, ◌<◌, ◌≤◌, IfOk, OnOk, length};
ghost use Rattle.lj_deriv.specs.Nodes.{node_tree, steps_of};
ghost use Rattle.lj_deriv.specs.Positions.{AreAppended, AreCounted, before, tree_source};

use crate::arena::Arena;
use crate::laws::before_law;
use lj_base::Memory;
use std::alloc::Global;

// The running counts of all nodes. Those of a node begin at its place in `starts`.
#[derive(Drop)]
pub struct Counts {
    pub starts: Vec<u64>,
    pub counts: Vec<u64>,
}

/// The running counts of all nodes, one for each 64 blocks of a node's source. It takes a few steps for each block of
/// each node's source.
pub fn counts_of(alloc: Global, arena: &Arena) -> Result<Counts, Memory>
    ensures { IfOk result (λ c. AreCounted (steps_of arena.now) (length arena.now.rules)
        c.starts.items c.counts.items) }
{
    let len = arena.len();
    let mut starts = Vec::new(alloc);
    let mut counts = Vec::new(alloc);
    for node in 0..len {
        starts.push(counts.len() as u64)?;
        push_counts(&mut counts, arena, node)?;
    }
    Ok(Counts { starts, counts })
}

// Appends the counts of a node.
fn push_counts(counts: &mut Vec<u64>, arena: &Arena, node: u64) -> Result<(), Memory>
    requires { node < length arena.now.rules }
    ensures { OnOk result (AreAppended (node_tree arena.now node) counts.old.items counts.new.items
        (length (tree_source (node_tree arena.now node)) / 64 + 1)) }
{
    before_law();
    let _cost = arena.cost(node);
    let many = arena.source(node).len() as u64;
    counts.push(0)?;
    let mut sum = 0;
    for j in 0..many / 64 {
        sum += share_between(arena, node, 64 * j, 64 * j + 64);
        counts.push(sum)?;
    }
    Ok(())
}

// How many blocks those between two places of the node's source give.
fn share_between(arena: &Arena, node: u64, from: u64, to: u64) -> u64
    requires there { node < length arena.now.rules }
    requires order { from ≤ to }
    requires inside { to ≤ length (tree_source (node_tree arena.now node)) }
    ensures { before (node_tree arena.now node) from + result ≡ before (node_tree arena.now node) to }
{
    before_law();
    let _cost = arena.cost(node);
    let mut sum = 0;
    for place in from..to {
        sum += arena.share(node, place);
    }
    sum
}
