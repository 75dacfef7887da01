ghost use Rattle.std.specs.Prelude.{◌≡◌, ◌≤◌, ◌++◌, OnErr, OnOk, length};
ghost use Rattle.lj_base.specs.Blocks.{Covers};
ghost use Rattle.lj_blockfile.specs.BlockFiles.{blocks_text};
ghost use Rattle.lj_cover.specs.Derivations.{expand, root_cell, tree_cost};
ghost use Rattle.lj_deriv.specs.Nodes.{plan_tree};
ghost use Rattle.lj_text.specs.Fields.{Extends};

use crate::batches::{BATCH, fill_batch, no_blocks};
use crate::expansion::MAX_EXPANDED;
use crate::lines::{LINE, point_texts, write_lines};
use lj_base::Memory;
use lj_deriv::Plan;
use lj_text::{cut_back, put};
use std::alloc::Global;

/// Appends a line for each block of the plan, in the order of its rules. It takes memory for the text alone.
pub fn write_blocks(_alloc: Global, plan: &Plan, out: &mut Vec<u8>) -> Result<(), Memory>
    requires few { tree_cost (plan_tree plan.now) ≤ MAX_EXPANDED }
    requires some { 1 ≤ (root_cell (plan_tree plan.now)).k }
    ensures ok { OnOk result (out.new.items ≡ out.old.items ++ blocks_text (expand (plan_tree plan.now))) }
    ensures err { OnErr result (out.new.items ≡ out.old.items) }
    ensures covers { Covers (expand (plan_tree plan.now)) (root_cell (plan_tree plan.now)) }
    ensures count { length (expand (plan_tree plan.now)) ≡ tree_cost (plan_tree plan.now) }
{
    let _cost = plan.cost();
    let start = out.len();
    let result = append_plan(plan, out);
    cut_back(out, start, result)
}

// Appends all lines, batch after batch; where memory ran out a part of them may have been appended.
fn append_plan(plan: &Plan, out: &mut Vec<u8>) -> Result<(), Memory>
    ensures ok { OnOk result (out.new.items ≡ out.old.items ++ blocks_text (expand (plan_tree plan.now))) }
    ensures err { OnErr result (Extends out.old.items out.new.items) }
{
    let texts = point_texts();
    let cost = plan.cost();
    let mut batch = no_blocks();
    let mut lines = [0; BATCH * LINE];
    let mut done = 0;
    while done < cost {
        let count = fill_batch(plan, done, &mut batch);
        let end = write_lines(&batch[..count], &texts, &mut lines);
        put(out, &lines[..end])?;
        done += count as u64;
    }
    Ok(())
}
