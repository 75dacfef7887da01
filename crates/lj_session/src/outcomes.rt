ghost use Rattle.std.specs.Prelude.{◌≡◌, ◌+◌, ◌<◌, ◌≤◌, ◌^◌, ℕ, IfErr, IfOk, OnOk, Some, length};
ghost use Rattle.lj_base.specs.Blocks.{AreBlocks};
ghost use Rattle.lj_session.specs.Outcomes.{Announces, CheckGives, CountGives, FrameGives, QuotaGives, TextGives};
ghost use Rattle.lj_session.specs.Outcomes.{fault_after, faulty_line};

use crate::offers::Offer;
use crate::reasons::Reason;
use crate::terms::Terms;
use lj_base::{Block, Cell, MAX_BLOCKS, Memory};
use lj_blockfile::{BodyFault, read_blocks};
use lj_cover::Design;
use lj_upload::Quota;
use lj_verify::{Refusal, check};
use std::alloc::Global;
use std::thread::Threads;

// What becomes of an offer: a design, or the first reason to refuse it.
pub(crate) fn judge<R: Threads + Sync>(
    rt: &R,
    alloc: Global,
    terms: Terms,
    quota: &Quota,
    offer: Offer,
    text: &[u8],
) -> Result<Result<Design, Reason>, Memory>
    requires some { 1 ≤ offer.cell.k }
    requires lines { offer.before + length text.now < 2 ^ 64 }
    ensures gives { IfOk result (FrameGives terms.frame quota.now offer text.now) }
    ensures few { IfOk result (λ outcome. IfOk outcome (λ design. length design.blocks ≤ MAX_BLOCKS)) }
{
    if !terms.frame.has(offer.cell) {
        return Ok(Err(Reason::Outside));
    }
    let cell = offer.cell;
    match read_blocks(alloc, text, u64::from(cell.v), u64::from(cell.k)) {
        Ok(blocks) => judge_blocks(rt, alloc, terms, quota, offer, blocks),
        Err(BodyFault::Memory) => Err(Memory),
        Err(fault) => Ok(Err(Reason::Body {
            fault: fault_after(offer.before, fault),
        })),
    }
}

// A fault of a text, with its line numbered within the body, where as many lines stand before the text.
fn fault_after(before: u64, fault: BodyFault) -> BodyFault
    requires { before + faulty_line fault < 2 ^ 64 }
    ensures { result ≡ fault_after before fault }
{
    match fault {
        BodyFault::Line {
            number,
            fault: found,
        } => BodyFault::Line {
            number: before + number,
            fault: found,
        },
        other => other,
    }
}

// What becomes of the blocks of an offer.
fn judge_blocks<R: Threads + Sync>(
    rt: &R,
    alloc: Global,
    terms: Terms,
    quota: &Quota,
    offer: Offer,
    blocks: Vec<Block>,
) -> Result<Result<Design, Reason>, Memory>
    requires blocks { AreBlocks offer.cell.v offer.cell.k blocks.items }
    requires few { length blocks.items ≤ MAX_BLOCKS }
    ensures gives { IfOk result (CountGives quota.now offer blocks.items) }
    ensures few { IfOk result (λ outcome. IfOk outcome (λ design. length design.blocks ≤ MAX_BLOCKS)) }
{
    let found = blocks.len() as u64;
    if let Err(reason) = compare_count(offer.announced, found) {
        return Ok(Err(reason));
    }
    if let Err(full) = quota.admit(found) {
        return Ok(Err(Reason::Quota { full }));
    }
    judge_covering(rt, alloc, offer.cell, blocks, terms)
}

// Whether a header, where there is one, announces as many blocks as were found.
fn compare_count(announced: Option<u64>, found: u64) -> Result<(), Reason>
    ensures ok { OnOk result (Announces announced found) }
    ensures err { IfErr result (λ reason. (n : ℕ) × (announced ≡ Some n) × (n ≡ found → ⊥)
        × (reason ≡ Reason.Count n found)) }
{
    match announced {
        Some(announced) if announced != found => Err(Reason::Count { announced, found }),
        _ => Ok(()),
    }
}

// What becomes of blocks that the quota admits: they are checked.
fn judge_covering<R: Threads + Sync>(
    rt: &R,
    alloc: Global,
    cell: Cell,
    blocks: Vec<Block>,
    terms: Terms,
) -> Result<Result<Design, Reason>, Memory>
    requires blocks { AreBlocks cell.v cell.k blocks.items }
    requires few { length blocks.items ≤ MAX_BLOCKS }
    ensures gives { IfOk result (CheckGives cell blocks.items) }
    ensures few { IfOk result (λ outcome. IfOk outcome (λ design. length design.blocks ≤ MAX_BLOCKS)) }
{
    match check(rt, alloc, cell, blocks, terms.workers) {
        Ok(design) => Ok(Ok(design)),
        Err(Refusal::Memory) => Err(Memory),
        Err(refusal) => Ok(Err(Reason::Check { refusal })),
    }
}
