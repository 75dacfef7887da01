ghost use Rattle.std.specs.Prelude.{◌≡◌, ◌+◌, ◌<◌, ◌≤◌, ◌^◌, ◌++◌, ℕ, List, IfOk, Ok, Err, codes, drop, length};
ghost use Rattle.lj_base.specs.Frames.{InFrame};
ghost use Rattle.lj_script.specs.Values.{NamesSome};
ghost use Rattle.lj_script.specs.declared.scripts.Command.{Command};
ghost use Rattle.lj_session.specs.Handling.{IsHandled};
ghost use Rattle.lj_session.specs.Outcomes.{FrameGives, Outcome, UploadGives};
ghost use Rattle.lj_session.specs.ReplyTexts.{outside_line, refused_line};
ghost use Rattle.lj_session.specs.Handling.{HandlesOutcome, Reads};

use crate::asks::Ask;
use crate::offers::Offer;
use crate::outcomes::judge;
use crate::reasons::Reason;
use crate::reply_texts::{put_cell_line, put_refused};
use crate::terms::Terms;
use lj_base::{Cell, MAX_BLOCKS, Memory};
use lj_blockfile::read_header;
use lj_cover::Design;
use lj_script::Command;
use lj_upload::{Accepted, Name, Quota};
use std::alloc::Global;
use std::thread::Threads;

// Handles a command of a client: what it asks, or `Done` where its reply needs no table and was appended.
pub(crate) fn handle<R: Threads + Sync>(
    rt: &R,
    alloc: Global,
    terms: Terms,
    client: Name,
    quota: &Quota,
    command: &Command,
    replies: &mut Vec<u8>,
) -> Result<Ask, Memory>
    requires { NamesSome command.now }
    ensures { IfOk result (IsHandled terms.frame client quota.now command.now replies.old.items replies.new.items) }
{
    match command {
        Command::Upload { cell, body } => {
            let offer = Offer {
                cell: *cell,
                before: 0,
                announced: None,
            };
            let outcome = judge(rt, alloc, terms, quota, offer, body.items())?;
            conclude(alloc, client, quota, outcome, replies)
        }
        Command::UploadFile { body } => {
            let outcome = judge_file(rt, alloc, terms, quota, body.items())?;
            conclude(alloc, client, quota, outcome, replies)
        }
        Command::Bound { cell } => {
            if !is_read(terms, *cell, replies)? {
                return Ok(Ask::Done);
            }
            Ok(Ask::Bound { cell: *cell })
        }
        Command::Plan { cell } | Command::Expand { cell } => {
            if !is_read(terms, *cell, replies)? {
                return Ok(Ask::Done);
            }
            Ok(Ask::Plan { cell: *cell })
        }
        Command::Settle => Ok(Ask::Settle),
    }
}

// What becomes of a file.
fn judge_file<R: Threads + Sync>(
    rt: &R,
    alloc: Global,
    terms: Terms,
    quota: &Quota,
    body: &[u8],
) -> Result<Result<Design, Reason>, Memory>
    ensures gives { IfOk result (UploadGives terms.frame quota.now (Command.UploadFile body.now)) }
    ensures few { IfOk result (λ outcome. IfOk outcome (λ design. length design.blocks ≤ MAX_BLOCKS)) }
{
    let Ok(header) = read_header(body) else {
        return Ok(Err(Reason::Header));
    };
    let offer = Offer {
        cell: header.cell,
        before: header.line,
        announced: Some(header.n),
    };
    judge(rt, alloc, terms, quota, offer, rest_of(body, header.rest))
}

// The bytes from a place on.
pub(crate) fn rest_of(bytes: &[u8], place: u64) -> &[u8]
    requires { place ≤ length bytes.now }
    ensures { result.now ≡ drop place bytes.now }
{
    &bytes[place as usize..]
}

// Asks that an upload be accepted, or appends the reply that it is refused.
fn conclude(
    alloc: Global,
    client: Name,
    quota: &Quota,
    outcome: Result<Design, Reason>,
    replies: &mut Vec<u8>,
) -> Result<Ask, Memory>
    requires { IfOk outcome (λ design. length design.blocks ≤ MAX_BLOCKS) }
    ensures { IfOk result (HandlesOutcome client quota.now outcome replies.old.items replies.new.items) }
{
    match outcome {
        Ok(design) => {
            let ordinal = quota.uploads() + 1;
            let up = Accepted::new(alloc, client, ordinal, design)?;
            Ok(Ask::Accept { up })
        }
        Err(reason) => {
            put_refused(replies, &reason)?;
            Ok(Ask::Done)
        }
    }
}

// Whether a cell is read from the table; else the reply that it is not in the frame is appended.
fn is_read(terms: Terms, cell: Cell, replies: &mut Vec<u8>) -> Result<bool, Memory>
    ensures { IfOk result (Reads terms.frame cell replies.old.items replies.new.items) }
{
    if terms.frame.has(cell) {
        return Ok(true);
    }
    put_cell_line(replies, b"outside", cell)?;
    Ok(false)
}
