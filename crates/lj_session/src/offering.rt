ghost use Rattle.std.specs.Prelude.{◌≡◌, ◌↔◌, ◌≤◌, ◌∷◌, [], IfOk, IsTrue, length};
ghost use Rattle.std.specs.List.{AllByRecursion};
ghost use Rattle.lj_blockfile.specs.BlockFiles.{AreBlocksOf};
ghost use Rattle.lj_cover.specs.Uses.{EachUpload};
ghost use Rattle.lj_deriv.specs.Nodes.{plan_tree};
ghost use Rattle.lj_script.specs.Values.{NamesSome};
ghost use Rattle.lj_script.specs.declared.scripts.Command.{Command};
ghost use Rattle.lj_session.specs.Offered.{HasOffer, IsOfferOf, IsOffered, IsOfferedBy, upload_count};

use crate::handling::rest_of;
use lj_base::{Block, Cell, Memory};
use lj_blockfile::{BodyFault, read_blocks, read_header};
use lj_deriv::Plan;
use lj_script::{Command, MAX_COMMANDS, Section};
use lj_upload::Accepted;
use std::alloc::Global;

/// Whether each upload that a rule of the plan names is offered by one of the sections, be it accepted or refused. It
/// fails only when memory runs out. Cost: for each of these uploads the texts that its client offers for its cell are
/// read, up to one that holds its blocks.
pub fn offered(alloc: Global, plan: &Plan, sections: &[Section]) -> Result<bool, Memory>
    ensures uploads { IfOk result (λ yes. IsTrue yes ↔ AllByRecursion (IsOffered sections.now) plan.now.uploads) }
    ensures tree { IfOk result (λ yes. IsTrue yes ↔ EachUpload (IsOffered sections.now) (plan_tree plan.now)) }
{
    let _nodes = plan.len();
    let _cost = plan.cost();
    are_offered(alloc, plan.uploads(), sections)
}

fn are_offered(alloc: Global, uploads: &[Accepted], sections: &[Section]) -> Result<bool, Memory>
    ensures { IfOk result (λ yes. IsTrue yes ↔ AllByRecursion (IsOffered sections.now) uploads.now) }
{
    for up in uploads {
        if !is_offered(alloc, up, sections)? {
            return Ok(false);
        }
    }
    Ok(true)
}

fn is_offered(alloc: Global, up: &Accepted, sections: &[Section]) -> Result<bool, Memory>
    ensures { IfOk result (λ yes. IsTrue yes ↔ IsOffered sections.now up.now) }
{
    for section in sections {
        if is_offered_by(alloc, up, section)? {
            return Ok(true);
        }
    }
    Ok(false)
}

fn is_offered_by(alloc: Global, up: &Accepted, section: &Section) -> Result<bool, Memory>
    ensures { IfOk result (λ yes. IsTrue yes ↔ IsOfferedBy section.now up.now) }
{
    let _covering = up.design();
    if may_be_of(up, section) {
        has_offer(alloc, up, section.commands())
    } else {
        Ok(false)
    }
}

// Whether the upload's client is the section's, and its ordinal one of as many as the section has uploads.
fn may_be_of(up: &Accepted, section: &Section) -> bool
    ensures { IsTrue result ↔ ((up.now.client ≡ section.now.name) × (1 ≤ up.now.ordinal)
        × (up.now.ordinal ≤ upload_count section.now.commands)) }
{
    up.client().bytes() == section.name().bytes()
        && is_within(up.ordinal(), upload_count(section.commands()))
}

fn is_within(ordinal: u64, count: u64) -> bool
    ensures { IsTrue result ↔ ((1 ≤ ordinal) × (ordinal ≤ count)) }
{
    1 <= ordinal && ordinal <= count
}

fn upload_count(commands: &[Command]) -> u64
    requires { length commands.now ≤ MAX_COMMANDS }
    ensures { result ≡ upload_count commands.now }
{
    let mut count: u64 = 0;
    for command in commands {
        if is_upload(command) {
            count += 1;
        }
    }
    count
}

fn is_upload(command: &Command) -> bool
    ensures { IsTrue result ↔ (upload_count (command.now ∷ []) ≡ 1) }
{
    matches!(command, Command::Upload { .. } | Command::UploadFile { .. })
}

// Whether one of the commands offers the upload's cell and blocks.
fn has_offer(alloc: Global, up: &Accepted, commands: &[Command]) -> Result<bool, Memory>
    requires { AllByRecursion NamesSome commands.now }
    ensures { IfOk result (λ yes. IsTrue yes ↔ HasOffer commands.now up.now) }
{
    for command in commands {
        if is_offer_of(alloc, up, command)? {
            return Ok(true);
        }
    }
    Ok(false)
}

fn is_offer_of(alloc: Global, up: &Accepted, command: &Command) -> Result<bool, Memory>
    requires { NamesSome command.now }
    ensures { IfOk result (λ yes. IsTrue yes ↔ IsOfferOf command.now up.now) }
{
    match command {
        Command::Upload { cell, body } => is_given_by(alloc, up, *cell, body.items()),
        Command::UploadFile { body } => is_in_file(alloc, up, body.items()),
        _ => Ok(false),
    }
}

fn is_in_file(alloc: Global, up: &Accepted, body: &[u8]) -> Result<bool, Memory>
    ensures { IfOk result (λ yes. IsTrue yes ↔ IsOfferOf (Command.UploadFile body.now) up.now) }
{
    let Ok(header) = read_header(body) else {
        return Ok(false);
    };
    is_given_by(alloc, up, header.cell, rest_of(body, header.rest))
}

// Whether the cell is the upload's, and the text holds its blocks.
fn is_given_by(alloc: Global, up: &Accepted, cell: Cell, text: &[u8]) -> Result<bool, Memory>
    requires { 1 ≤ cell.k }
    ensures { IfOk result (λ yes. IsTrue yes ↔ ((up.now.cell ≡ cell)
        × AreBlocksOf text.now cell.v cell.k up.now.blocks)) }
{
    if has_cell(up, cell) {
        is_text_of(alloc, up, cell, text)
    } else {
        Ok(false)
    }
}

fn has_cell(up: &Accepted, cell: Cell) -> bool
    ensures { IsTrue result ↔ (up.now.cell ≡ cell) }
{
    up.design().cell() == cell
}

// Whether the text holds the upload's blocks.
fn is_text_of(alloc: Global, up: &Accepted, cell: Cell, text: &[u8]) -> Result<bool, Memory>
    requires { 1 ≤ cell.k }
    ensures { IfOk result (λ yes. IsTrue yes ↔ AreBlocksOf text.now cell.v cell.k up.now.blocks) }
{
    match read_blocks(alloc, text, u64::from(cell.v), u64::from(cell.k)) {
        Ok(found) => Ok(has_blocks(up, found.as_slice())),
        Err(BodyFault::Memory) => Err(Memory),
        Err(_) => Ok(false),
    }
}

fn has_blocks(up: &Accepted, blocks: &[Block]) -> bool
    ensures { IsTrue result ↔ (up.now.blocks ≡ blocks.now) }
{
    up.design().blocks() == blocks
}
