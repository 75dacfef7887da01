ghost use Rattle.std.specs.Prelude.{◌≡◌, ◌<◌, length};

use lj_base::{Block, MemSink, Memory};
use lj_blockfile::write_block;
use lj_deriv::{Arena, Part, Plan};
use lj_expand::{MAX_EXPANDED, block_at, expand_all, stream, write_blocks};
use std::alloc::Global;
use std::test::Fail;

/// One part of a product.
pub fn part(a: u8, b: u8, l: u8, first: u64, second: u64) -> Part
    ensures { result ≡ record { a = a; b = b; l = l; first = first; second = second } }
{
    Part {
        a,
        b,
        l,
        first,
        second,
    }
}

/// The text of a node's plan.
pub fn plan_text(alloc: Global, arena: &Arena, node: u64) -> Result<Vec<u8>, Memory>
    requires { node < length arena.now.rules }
{
    let plan = arena.plan(alloc, node)?;
    let mut text = Vec::new(alloc);
    plan.text(&mut text)?;
    Ok(text)
}

/// The block lines of a node's plan: those of its whole expansion, which must be those that are written at once, those
/// that are written one by one, and those of its blocks by position.
pub fn lines(alloc: Global, arena: &Arena, root: u64) -> Result<Vec<u8>, Fail>
    requires { root < length arena.now.rules }
{
    let plan = arena.plan(alloc, root)?;
    let text = expanded(alloc, &plan)?;
    if text.as_slice() != written(alloc, &plan)?.as_slice() {
        return Err("other lines".into());
    }
    if text.as_slice() != streamed(alloc, &plan)?.as_slice() {
        return Err("another stream".into());
    }
    if text.as_slice() != placed(alloc, &plan)?.as_slice() {
        return Err("other blocks by position".into());
    }
    Ok(text)
}

/// Goes through the lines of each node of an arena, and returns the number of nodes.
pub fn nodes_agree(alloc: Global, arena: &Arena) -> Result<u64, Fail> {
    let len = arena.len();
    for root in 0..len {
        lines(alloc, arena, root)?;
    }
    Ok(len)
}

/// The line of a plan's block at a position, and nothing where there is none.
pub fn line_at(alloc: Global, plan: &Plan, i: u64) -> Result<Vec<u8>, Memory> {
    let mut text = Vec::new(alloc);
    if i < plan.cost() {
        write_block(&block_at(plan, i), &mut text)?;
    }
    Ok(text)
}

// The lines of the whole expansion.
fn expanded(alloc: Global, plan: &Plan) -> Result<Vec<u8>, Fail> {
    if plan.cost() > MAX_EXPANDED {
        return Err("too many blocks".into());
    }
    let design = expand_all(alloc, plan)?;
    if design.cell() != plan.cell() || design.blocks().len() as u64 != plan.cost() {
        return Err("another cell or cost".into());
    }
    Ok(lines_of(alloc, design.blocks())?)
}

// The lines that are written at once.
fn written(alloc: Global, plan: &Plan) -> Result<Vec<u8>, Fail> {
    if plan.cost() > MAX_EXPANDED || plan.cell().k == 0 {
        return Err("no lines".into());
    }
    let mut text = Vec::new(alloc);
    write_blocks(alloc, plan, &mut text)?;
    Ok(text)
}

// The lines that are written one by one, to a sink that takes 5 bytes a call.
fn streamed(alloc: Global, plan: &Plan) -> Result<Vec<u8>, Fail> {
    if plan.cell().k == 0 {
        return Err("no lines".into());
    }
    let mut sink = MemSink::new(alloc, 8192, 5, Vec::new(alloc))?;
    if stream(plan, &mut sink).is_err() {
        return Err("a fault".into());
    }
    Ok(sink.bytes().to_vec(alloc)?)
}

// The lines of the blocks by position.
fn placed(alloc: Global, plan: &Plan) -> Result<Vec<u8>, Fail> {
    let mut text = Vec::new(alloc);
    for i in 0..plan.cost() {
        write_block(&block_at(plan, i), &mut text)?;
    }
    Ok(text)
}

fn lines_of(alloc: Global, blocks: &[Block]) -> Result<Vec<u8>, Memory> {
    let mut text = Vec::new(alloc);
    for block in blocks {
        write_block(block, &mut text)?;
    }
    Ok(text)
}
