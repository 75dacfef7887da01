ghost use Rattle.std.specs.Prelude.{◌≡◌, ◌++◌, OnOk};
ghost use Rattle.lj_cover.specs.Derivations.{root_cell, tree_cost};
ghost use Rattle.lj_deriv.specs.Nodes.{plan_tree};
ghost use Rattle.lj_deriv.specs.Texts.{plan_text};
ghost use Rattle.lj_session.specs.ReplyTexts.{bound_line, cell_line, numbers_line, plan_reply, quota_text, reason_text};
ghost use Rattle.lj_session.specs.ReplyTexts.{refused_line};

use crate::reasons::Reason;
use lj_base::{Cell, Memory};
use lj_blockfile::put_body_fault;
use lj_deriv::Plan;
use lj_text::{put, put_named};
use lj_upload::QuotaFull;
use lj_verify::put_refusal;

// Where memory runs out in one of these calls, a part of the reply may have been appended.

// Appends a word and numbers as a line.
pub(crate) fn put_numbers_line(
    out: &mut Vec<u8>,
    word: &[u8],
    numbers: &[u64],
) -> Result<(), Memory>
    ensures { OnOk result (out.new.items ≡ out.old.items ++ numbers_line word.now numbers.now) }
{
    put_named(out, word, numbers)?;
    put(out, b"\n")
}

// Appends a word and a cell as a line.
pub(crate) fn put_cell_line(out: &mut Vec<u8>, word: &[u8], cell: Cell) -> Result<(), Memory>
    ensures { OnOk result (out.new.items ≡ out.old.items ++ cell_line word.now cell) }
{
    let Cell { v, k, t } = cell;
    put_numbers_line(out, word, &[u64::from(v), u64::from(k), u64::from(t)])
}

// Appends a word, a cell and its number of blocks as a line.
pub(crate) fn put_bound_line(
    out: &mut Vec<u8>,
    word: &[u8],
    cell: Cell,
    bound: u64,
) -> Result<(), Memory>
    ensures { OnOk result (out.new.items ≡ out.old.items ++ bound_line word.now cell bound) }
{
    let Cell { v, k, t } = cell;
    put_numbers_line(
        out,
        word,
        &[u64::from(v), u64::from(k), u64::from(t), bound],
    )
}

// Appends the reply to an upload that is refused.
pub(crate) fn put_refused(out: &mut Vec<u8>, reason: &Reason) -> Result<(), Memory>
    ensures { OnOk result (out.new.items ≡ out.old.items ++ refused_line reason.now) }
{
    put(out, b"refused ")?;
    put_reason(out, reason)?;
    put(out, b"\n")
}

// Appends the words for a reason.
fn put_reason(out: &mut Vec<u8>, reason: &Reason) -> Result<(), Memory>
    ensures { OnOk result (out.new.items ≡ out.old.items ++ reason_text reason.now) }
{
    match reason {
        Reason::Header => put(out, b"header"),
        Reason::Outside => put(out, b"outside frame"),
        Reason::Body { fault } => put_body_fault(out, fault),
        Reason::Count { announced, found } => put_named(out, b"count", &[*announced, *found]),
        Reason::Quota { full } => put_quota(out, full),
        Reason::Check { refusal } => put_refusal(out, refusal),
    }
}

// Appends the words for a quota that is full.
fn put_quota(out: &mut Vec<u8>, full: &QuotaFull) -> Result<(), Memory>
    ensures { OnOk result (out.new.items ≡ out.old.items ++ quota_text full.now) }
{
    match full {
        QuotaFull::Uploads { n } => put_named(out, b"quota uploads", &[*n]),
        QuotaFull::Blocks { n } => put_named(out, b"quota blocks", &[*n]),
    }
}

// Appends the reply to a plan.
pub(crate) fn put_plan(plan: &Plan, out: &mut Vec<u8>) -> Result<(), Memory>
    ensures { OnOk result (out.new.items ≡ out.old.items
        ++ plan_reply (root_cell (plan_tree plan.now)) (tree_cost (plan_tree plan.now)) (plan_text plan.now)) }
{
    put_bound_line(out, b"plan", plan.cell(), plan.cost())?;
    plan.text(out)?;
    put(out, b"end\n")
}
