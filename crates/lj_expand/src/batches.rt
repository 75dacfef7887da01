ghost use Rattle.std.specs.Prelude.{◌≡◌, ◌+◌, ◌-◌, ◌<◌, ◌≤◌, Some, drop, length, min, slice_index, take};
ghost use Rattle.std.specs.List.{slice_get};
ghost use Rattle.lj_base.specs.Blocks.{IsBlock};
ghost use Rattle.lj_cover.specs.Derivations.{expand, root_cell, tree_cost};
ghost use Rattle.lj_cover.specs.Operations.{cut};
ghost use Rattle.lj_deriv.specs.Nodes.{plan_tree, step_tree};
ghost use Rattle.lj_deriv.specs.Positions.{tree_source};
ghost use Rattle.lj_expand.specs.Positions.{IsCutChild, IsInducedNode, IsProductNode, IsRun, IsSourced, IsUnited};
ghost use Rattle.lj_expand.specs.Positions.{cut_list, part_blocks, part_cost};

use crate::bases::points_between;
use crate::filling::{
    add_each, drop_each, fill_all, fill_copies, fill_one, fill_runs, fill_through, fill_through2,
    grow_each, place_each, unite_all, unite_each,
};
use crate::positions::{part_spot, spot_of};
use lj_base::{Block, Cell};
use lj_cover::laws::{
    blockwise_rules_join, expansion_covers, larger_cuts_have_children, sizes_of_cuts,
};
use lj_cover::{cut_first, fill};
use lj_deriv::laws::before_law;
use lj_deriv::{Part, Plan, Rule};

/// How many blocks are made at a time, on the stack.
pub(crate) const BATCH: usize = 128;

/// The plan's `i`-th block, from 0, in the order of its rules. It takes no memory. It takes, for each node on the way,
/// a search over the running counts and at most 64 blocks of an upload.
pub fn block_at(plan: &Plan, i: u64) -> Block
    requires { i < tree_cost (plan_tree plan.now) }
    ensures block { slice_get (expand (plan_tree plan.now)) i ≡ Some result }
    ensures shape { IsBlock (root_cell (plan_tree plan.now)).v (root_cell (plan_tree plan.now)).k result }
{
    let last = plan.len() - 1;
    node_block(plan, last, i)
}

/// Fills the front of `out` with the plan's blocks from position `i` on, as many as there is room for, and returns
/// their number. It takes no memory.
pub(crate) fn fill_batch(plan: &Plan, i: u64, out: &mut [Block]) -> usize
    requires { i ≤ tree_cost (plan_tree plan.now) }
    ensures count { result ≡ min (length out.old) (tree_cost (plan_tree plan.now) - i) }
    ensures blocks { take result out.new ≡ take result (drop i (expand (plan_tree plan.now))) }
{
    let last = plan.len() - 1;
    let left = plan.cost() - i;
    let count = (out.len() as u64).min(left) as usize;
    let front = &mut out[..count];
    fill_from(plan, last, i, front);
    count
}

/// A batch before it is filled.
pub(crate) fn no_blocks() -> [Block; BATCH]
    ensures { length result ≡ BATCH }
{
    [Block::empty(); BATCH]
}

// Fills `out` with a node's blocks, from position `i` on. For blocks one after another it is fastest to take many at a
// time: the searches for the position are then made once for all.
#[cycle(batch)]
fn fill_from(plan: &Plan, node: u64, i: u64, out: &mut [Block])
    requires there { node < length plan.now.rules }
    requires fits { i + length out.old ≤ tree_cost (step_tree plan.now node) }
    ensures { out.new ≡ take (length out.old) (drop i (expand (step_tree plan.now node))) }
{
    if out.is_empty() {
        return;
    }
    expansion_covers();
    blockwise_rules_join();
    sizes_of_cuts();
    larger_cuts_have_children();
    let _cost = plan.cost_of(node);
    match plan.rule(node) {
        Rule::One { cell } => fill_one(points_between(0, u64::from(cell.k)), out),
        Rule::Runs { cell } => fill_runs(u64::from(cell.v), u64::from(cell.k), i, out),
        Rule::All { cell } => fill_all(u64::from(cell.v), u64::from(cell.k), i, out),
        Rule::Leaf { upload } => {
            let blocks = plan.upload(*upload).design().blocks();
            fill_copies(blocks, i, out);
        }
        Rule::Derived { point, .. } => {
            let spot = spot_of(plan, node, i);
            fill_through(plan.source(node), *point, spot.place, out);
        }
        Rule::Derived2 { first, second, .. } => {
            let spot = spot_of(plan, node, i);
            fill_through2(plan.source(node), *first, *second, spot.place, out);
        }
        Rule::Drop { child } => {
            let v = u64::from(plan.cell_of(*child).v) - 1;
            let _cost = plan.cost_of(*child);
            fill_from(plan, *child, i, out);
            drop_each(v, out);
        }
        Rule::Add { child } => {
            let v = plan.cell_of(*child).v;
            let _cost = plan.cost_of(*child);
            fill_from(plan, *child, i, out);
            add_each(v, out);
        }
        Rule::Grow { child } => {
            let cell = plan.cell_of(*child);
            let _cost = plan.cost_of(*child);
            fill_from(plan, *child, i, out);
            grow_each(u64::from(cell.v), u64::from(cell.k) + 1, out);
        }
        Rule::Lower { child } => fill_from(plan, *child, i, out),
        Rule::Product {
            v1,
            parts,
            count,
            ..
        } => {
            let parts = &parts[..*count as usize];
            fill_product(plan, node, u64::from(*v1), parts, i, out);
        }
        Rule::Induced { cell, children, .. } => {
            fill_induced(plan, node, *cell, children, i, out);
        }
    }
}

// A node's `i`-th block.
#[cycle(batch)]
fn node_block(plan: &Plan, node: u64, i: u64) -> Block
    requires there { node < length plan.now.rules }
    requires below { i < tree_cost (step_tree plan.now node) }
    ensures place { slice_get (expand (step_tree plan.now node)) i ≡ Some result }
    ensures block { IsBlock (root_cell (step_tree plan.now node)).v (root_cell (step_tree plan.now node)).k result }
{
    expansion_covers();
    let _cost = plan.cost_of(node);
    let mut one = [Block::empty()];
    fill_from(plan, node, i, &mut one);
    one[0]
}

// Fills `out` with the blocks of a product, from position `i` on.
#[cycle(batch)]
fn fill_product(plan: &Plan, node: u64, v1: u64, parts: &[Part], i: u64, out: &mut [Block])
    requires there { node < length plan.now.rules }
    requires product { IsProductNode plan.now node v1 parts.now }
    requires fits { i + length out.old ≤ tree_cost (step_tree plan.now node) }
    ensures { out.new ≡ take (length out.old) (drop i (expand (step_tree plan.now node))) }
{
    let _cost = plan.cost_of(node);
    let mut done = 0;
    'parts: while done < out.len() {
        let spot = part_spot(plan, parts, i + done as u64);
        let part = parts[spot.place as usize];
        done += fill_row(plan, node, v1, part, spot.offset, &mut out[done..]);
    }
}

// Fills the front of `out` with blocks of one part of a product, from an offset on, and returns their number: those of
// one row, where one block of the first factor is united with the second's, or of several that are short.
#[cycle(batch)]
fn fill_row(plan: &Plan, node: u64, v1: u64, part: Part, offset: u64, out: &mut [Block]) -> usize
    requires there { node < length plan.now.rules }
    requires first { part.first < node }
    requires second { part.second < node }
    requires united { IsUnited plan.now v1 part }
    requires within { offset < part_cost plan.now part }
    requires some { 0 < length out.old }
    ensures { IsRun (part_blocks plan.now v1 part) offset out.new result }
{
    expansion_covers();
    let faster = plan.cost_of(part.second);
    if faster < out.len() as u64 && faster <= BATCH as u64 {
        return fill_rows(plan, node, v1, part, offset, out);
    }
    let from = offset % faster;
    let run = out.len().min((faster - from) as usize);
    let first = node_block(plan, part.first, offset / faster);
    let row = &mut out[..run];
    fill_from(plan, part.second, from, row);
    unite_each(first, v1, row);
    run
}

// Does so over whole rows: the blocks of the second factor, which are few, and some of the first are made once for all.
#[cycle(batch)]
fn fill_rows(plan: &Plan, node: u64, v1: u64, part: Part, offset: u64, out: &mut [Block]) -> usize
    requires there { node < length plan.now.rules }
    requires first { part.first < node }
    requires second { part.second < node }
    requires united { IsUnited plan.now v1 part }
    requires within { offset < part_cost plan.now part }
    requires some { 0 < length out.old }
    requires few { tree_cost (step_tree plan.now part.second) ≤ BATCH }
    ensures { IsRun (part_blocks plan.now v1 part) offset out.new result }
{
    expansion_covers();
    let slower = plan.cost_of(part.first);
    let faster = plan.cost_of(part.second);
    let start = offset / faster;
    let from = offset % faster;
    let wanted = out.len().min(BATCH) as u64;
    let rows = ((from + wanted - 1) / faster + 1).min(slower - start);
    let count = rows.min(BATCH as u64);
    let mut first_blocks = no_blocks();
    let mut second_blocks = no_blocks();
    let firsts = &mut first_blocks[..count as usize];
    fill_from(plan, part.first, start, firsts);
    let seconds = &mut second_blocks[..faster as usize];
    fill_from(plan, part.second, 0, seconds);
    let run = out.len().min((count * faster - from) as usize);
    unite_all(firsts, seconds, v1, from, &mut out[..run]);
    run
}

// Fills `out` with the blocks of an induced node, from position `i` on.
#[cycle(batch)]
fn fill_induced(plan: &Plan, node: u64, cell: Cell, children: &[u64; 26], i: u64, out: &mut [Block])
    requires there { node < length plan.now.rules }
    requires sourced { IsSourced (step_tree plan.now node) }
    requires induced { IsInducedNode plan.now node cell children.now (tree_source (step_tree plan.now node)) }
    requires some { 0 < length out.old }
    requires fits { i + length out.old ≤ tree_cost (step_tree plan.now node) }
    ensures { out.new ≡ take (length out.old) (drop i (expand (step_tree plan.now node))) }
{
    expansion_covers();
    before_law();
    let source = plan.source(node);
    let spot = spot_of(plan, node, i);
    let mut place = spot.place as usize;
    let mut offset = spot.offset;
    let mut done = 0;
    'cuts: while done < out.len() {
        let block = source[place];
        done += fill_cut(plan, node, cell, children, block, offset, &mut out[done..]);
        offset = 0;
        place += 1;
    }
}

// Fills the front of `out` with the blocks for the cut of one block, from an offset on, as many as there is room for,
// and returns their number.
#[cycle(batch)]
fn fill_cut(
    plan: &Plan,
    node: u64,
    cell: Cell,
    children: &[u64; 26],
    block: Block,
    offset: u64,
    out: &mut [Block],
) -> usize
    requires there { node < length plan.now.rules }
    requires child { cell.k < length (cut cell.v block)
        → IsCutChild plan.now node (length (cut cell.v block))
        (slice_index children.now (length (cut cell.v block))) }
    requires some { 0 < length out.old }
    requires within { offset ≤ length (cut_list plan.now cell children.now block) }
    ensures count { result ≡ min (length out.old) (length (cut_list plan.now cell children.now block) - offset) }
    ensures blocks { take result out.new ≡ take result (drop offset (cut_list plan.now cell children.now block)) }
{
    expansion_covers();
    let points = cut_first(block, u64::from(cell.v));
    let size = points.len();
    if size < u64::from(cell.t) {
        return 0;
    }
    if size <= u64::from(cell.k) {
        if offset > 0 {
            return 0;
        }
        out[0] = fill(points, u64::from(cell.v), u64::from(cell.k));
        return 1;
    }
    let child = children[size as usize];
    let cost = plan.cost_of(child);
    let run = out.len().min((cost - offset) as usize);
    let row = &mut out[..run];
    fill_from(plan, child, offset, row);
    place_each(&points, row);
    run
}
