ghost use Rattle.std.specs.Prelude.{◌≡◌, ◌<◌, ◌≤◌, IfOk, length};
ghost use Rattle.lj_base.specs.Colex.{choose};
ghost use Rattle.lj_cli.specs.CountOutput.{IsExcessOutput, excess_text};
ghost use Rattle.lj_cli.specs.Ends.{Ends, input_of, output_of};
ghost use Rattle.lj_excess.specs.Multiplicities.{tally_of};

use crate::coverings::{ReadCovering, read_covering};
use crate::prints::{Made, end_early, print_made, put_line};
use crate::status::DONE;
use lj_base::{COST_LIMIT, Cell, MAX_BLOCKS, MAX_INPUT, Memory, Sink, Source, binom};
use lj_cover::Design;
use lj_excess::Counts;
use lj_schonheim::schonheim;
use lj_text::read_all;
use std::alloc::Global;
use std::thread::Threads;

/// Reads blocks from `input` and prints to `out` by how much they exceed a covering of each set once, or why they are
/// no covering whose sets can be counted. Returns the status.
pub fn excess_run<R: Threads + Sync, S: Source, K: Sink>(
    rt: &R,
    alloc: Global,
    cell: Cell,
    input: &mut S,
    out: &mut K,
) -> u8
    requires { 1 ≤ cell.k }
    ensures { Ends (IsExcessOutput cell) (input_of S.left S.faults input.old input.new)
        (output_of K.written K.faults out.old out.new) result }
{
    match read_all(alloc, input, MAX_INPUT) {
        Ok(bytes) => print_made(out, excess_output(alloc, cell, &bytes)),
        Err(fail) => end_early(out, fail),
    }
}

// What the bytes of a covering come to, or why they are none.
fn excess_output(alloc: Global, cell: Cell, bytes: &[u8]) -> Result<Made, Memory>
    requires { 1 ≤ cell.k }
    ensures { IfOk result (λ made. IsExcessOutput cell bytes.now made.text.items made.status) }
{
    match read_covering(alloc, cell, bytes)? {
        ReadCovering::NoCovering { verdict } => {
            let text = verdict.text(alloc)?;
            let status = verdict.status();
            Ok(Made { text, status })
        }
        ReadCovering::Covering { design, counts } => {
            let text = sums_text(alloc, &design, &counts)?;
            Ok(Made { text, status: DONE })
        }
    }
}

// The lines of a covering's sums, from its counts.
fn sums_text(alloc: Global, design: &Design, counts: &Counts) -> Result<Vec<u8>, Memory>
    requires counted { counts.now ≡ tally_of design.now.blocks design.now.cell }
    requires short { length design.now.blocks ≤ MAX_BLOCKS }
    ensures { IfOk result (λ text. text.items ≡ excess_text design.now.cell design.now.blocks) }
{
    let cell = design.cell();
    let blocks = design.blocks().len() as u64;
    let mut text = Vec::new(alloc);
    put_line(&mut text, b"blocks", blocks)?;
    put_line(&mut text, b"schonheim", schonheim(cell))?;
    put_line(&mut text, b"tsets", counts.sets())?;
    put_line(&mut text, b"marks", blocks * block_sets(cell))?;
    put_line(&mut text, b"excess", counts.excess())?;
    put_line(&mut text, b"once", counts.once())?;
    put_line(&mut text, b"most", u64::from(counts.most()))?;
    Ok(text)
}

// The number of sets of a block.
fn block_sets(cell: Cell) -> u64
    ensures value { result ≡ choose cell.k cell.t }
    ensures small { result < COST_LIMIT }
{
    binom(cell.k as u64, cell.t as u64)
}
