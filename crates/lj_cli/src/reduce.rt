ghost use Rattle.std.specs.Prelude.{◌≡◌, ◌≤◌, IfOk, length};
ghost use Rattle.lj_blockfile.specs.Headers.{file_text};
ghost use Rattle.lj_cli.specs.CountOutput.{IsReduceOutput};
ghost use Rattle.lj_cli.specs.Ends.{Ends, input_of, output_of};
ghost use Rattle.lj_excess.specs.Multiplicities.{tally_of};
ghost use Rattle.lj_greedy.specs.Reduced.{reduced};

use crate::coverings::{ReadCovering, read_covering};
use crate::prints::{Made, end_early, print_made};
use crate::status::DONE;
use lj_base::{Cell, MAX_BLOCKS, MAX_INPUT, Memory, Sink, Source};
use lj_blockfile::write_file;
use lj_cover::Design;
use lj_excess::Counts;
use lj_greedy::reduce_counted;
use lj_text::read_all;
use std::alloc::Global;
use std::thread::Threads;

/// Reads blocks from `input` and prints to `out` those that remain without the spare ones, as a file with a header, or
/// why they are no covering whose sets can be counted. Returns the status.
pub fn reduce_run<R: Threads + Sync, S: Source, K: Sink>(
    rt: &R,
    alloc: Global,
    cell: Cell,
    input: &mut S,
    out: &mut K,
) -> u8
    requires { 1 ≤ cell.k }
    ensures { Ends (IsReduceOutput cell) (input_of S.left S.faults input.old input.new)
        (output_of K.written K.faults out.old out.new) result }
{
    match read_all(alloc, input, MAX_INPUT) {
        Ok(bytes) => print_made(out, reduce_output(alloc, cell, &bytes)),
        Err(fail) => end_early(out, fail),
    }
}

// The file of the blocks that remain, or why the bytes are no covering.
fn reduce_output(alloc: Global, cell: Cell, bytes: &[u8]) -> Result<Made, Memory>
    requires { 1 ≤ cell.k }
    ensures { IfOk result (λ made. IsReduceOutput cell bytes.now made.text.items made.status) }
{
    match read_covering(alloc, cell, bytes)? {
        ReadCovering::NoCovering { verdict } => {
            let text = verdict.text(alloc)?;
            let status = verdict.status();
            Ok(Made { text, status })
        }
        ReadCovering::Covering { design, counts } => {
            let text = reduced_file(alloc, design, counts)?;
            Ok(Made { text, status: DONE })
        }
    }
}

// The file of what remains of a covering whose blocks were counted.
fn reduced_file(alloc: Global, design: Design, counts: Counts) -> Result<Vec<u8>, Memory>
    requires some { 1 ≤ design.cell.k }
    requires counted { counts ≡ tally_of design.blocks design.cell }
    requires short { length design.blocks ≤ MAX_BLOCKS }
    ensures { IfOk result (λ text. text.items ≡ file_text design.cell (reduced design.cell design.blocks)) }
{
    let design = reduce_counted(alloc, design, counts)?;
    let mut text = Vec::new(alloc);
    write_file(design.cell(), design.blocks(), &mut text)?;
    Ok(text)
}
