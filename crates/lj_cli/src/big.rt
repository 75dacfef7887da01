ghost use Rattle.std.specs.Prelude.{◌≡◌, ◌≤◌, ◌^◌, ◌++◌, [], ◌∷◌, IfOk, codes, drop, length};
ghost use Rattle.std.specs.List.{sum_by};
ghost use Rattle.lj_base.specs.Bounds.{at_cell};
ghost use Rattle.lj_gate.specs.Whole.{IsWholeServed};
ghost use Rattle.lj_gen.specs.Generated.{gen_value};
ghost use Rattle.lj_gen.specs.Quadruples.{gen_blocks};
ghost use Rattle.lj_report.specs.ReportCells.{report_cells};
ghost use Rattle.lj_blockfile.specs.BlockFiles.{AreBlocksOf, blocks_text};
ghost use Rattle.lj_cover.specs.Rules.{Upload};
ghost use Rattle.lj_session.specs.ReplyTexts.{numbers_line, settled_line};
ghost use Rattle.lj_cli.specs.BigOutput.{IsBigCommandOutput, IsBigOutput, big_text};
ghost use Rattle.lj_cli.specs.Ends.{EndsWithOutput, output_of};

use crate::prints::{print, put_line};
use crate::served::put_rebuilt;
use crate::status::{DONE, NO_MEMORY};
use lj_base::{Memory, Sink, choose_law};
use lj_gate::{Gate, Served, serve};
use lj_gen::{MAX_DIMENSION, MIN_DIMENSION, gen_script, quadruples_law};
use lj_report::ReportCells;
use lj_script::{Script, ScriptFault, read_script, script_law};
use lj_session::{SessionEnd, one_outcome_law};
use lj_table::Table;
use lj_text::{put, put_named};
use lj_verify::MAX_WORKERS;
use std::alloc::Global;
use std::sync::Wait;
use std::thread::Threads;

/// Serves the generated script of `2 ^ m` points, and prints to `out` a summary: the number of its blocks, the replies
/// to its bounds, how many cells the report lists and the sum of their bounds. Returns the status.
pub fn big_run<R: Threads + Wait + Sync, K: Sink, G: Gate + Sync>(
    rt: &R,
    alloc: Global,
    m: u64,
    workers: u64,
    out: &mut K,
    gate: &G,
) -> u8
    requires low { MIN_DIMENSION ≤ m }
    requires high { m ≤ MAX_DIMENSION }
    requires some_workers { 1 ≤ workers }
    requires few_workers { workers ≤ MAX_WORKERS }
    ensures { EndsWithOutput (IsBigCommandOutput m) (output_of K.written K.faults out.old out.new) result }
{
    match big_text(rt, alloc, m, workers, gate) {
        Ok(text) => print(out, &text, DONE),
        Err(Memory) => NO_MEMORY,
    }
}

fn big_text<R: Threads + Wait + Sync, G: Gate + Sync>(
    rt: &R,
    alloc: Global,
    m: u64,
    workers: u64,
    gate: &G,
) -> Result<Vec<u8>, Memory>
    requires low { MIN_DIMENSION ≤ m }
    requires high { m ≤ MAX_DIMENSION }
    requires some_workers { 1 ≤ workers }
    requires few_workers { workers ≤ MAX_WORKERS }
    ensures { IfOk result (λ text. IsBigOutput m text.items) }
{
    let script = generated(alloc, m)?;
    let served = serve(rt, alloc, script, workers, gate)?;
    summary(alloc, m, &served)
}

// The script that the generated text spells.
fn generated(alloc: Global, m: u64) -> Result<Script, Memory>
    requires low { MIN_DIMENSION ≤ m }
    requires high { m ≤ MAX_DIMENSION }
    ensures script { IfOk result (λ script. script ≡ gen_value m) }
    ensures blocks { IfOk result (λ _. AreBlocksOf (blocks_text (gen_blocks m)) (2 ^ m) 4 (gen_blocks m)) }
{
    script_law();
    let text = gen_script(alloc, m)?;
    match read_script(alloc, &text) {
        Ok(script) => Ok(script),
        Err(ScriptFault::Memory) => Err(Memory),
        Err(_fault) => unreachable!(),
    }
}

// The summary of a run that served the generated script.
fn summary(alloc: Global, m: u64, served: &Served) -> Result<Vec<u8>, Memory>
    requires low { MIN_DIMENSION ≤ m }
    requires high { m ≤ MAX_DIMENSION }
    requires blocks { AreBlocksOf (blocks_text (gen_blocks m)) (2 ^ m) 4 (gen_blocks m) }
    requires served { IsWholeServed (gen_value m) served.now.ends served.now.closed }
    ensures { IfOk result (λ text. IsBigOutput m text.items) }
{
    one_outcome_law();
    quadruples_law();
    let end = only_end(served.ends.items());
    let blocks = upload_size(end);
    let first = first_replies(alloc, blocks)?;
    let lines = after_first(end.replies.items(), &first);
    let totals = totals_of(&served.closed.table);
    let text = summary_text(alloc, m, blocks, lines, totals, served.closed.rebuilt)?;
    Ok(text)
}

fn only_end(ends: &[SessionEnd]) -> &SessionEnd
    requires { length ends.now ≡ 1 }
    ensures { ends.now ≡ result.now ∷ [] }
{
    &ends[0]
}

// How many blocks the only upload of an end has.
fn upload_size(end: &SessionEnd) -> u64
    requires { length end.now.accepted ≡ 1 }
    ensures { (u : Upload) → end.now.accepted ≡ u ∷ [] → result ≡ length u.blocks }
{
    end.accepted.items()[0].design().blocks().len() as u64
}

// The replies before those to the bounds: an upload of so many blocks is accepted, and the table is settled.
fn first_replies(alloc: Global, blocks: u64) -> Result<Vec<u8>, Memory>
    ensures { IfOk result (λ text. text.items ≡ numbers_line (codes "accepted") (1 ∷ blocks ∷ []) ++ settled_line) }
{
    let mut text = Vec::new(alloc);
    put_named(&mut text, b"accepted", &[1, blocks])?;
    put(&mut text, b"\nsettled\n")?;
    Ok(text)
}

// The text without its first bytes, which are as many as these.
fn after_first<'a>(text: &'a [u8], first: &[u8]) -> &'a [u8]
    requires { length first.now ≤ length text.now }
    ensures { result.now ≡ drop (length first.now) text.now }
{
    &text[first.len()..]
}

// How many cells a report lists, and the sum of their bounds.
#[derive(Clone, Copy)]
struct Totals {
    cells: u64,
    sum: u64,
}

fn totals_of(table: &Table) -> Totals
    ensures cells { result.cells ≡ length (report_cells table.now.arena.frame) }
    ensures sum { result.sum
        ≡ sum_by (at_cell table.now.arena.frame table.now.bounds) (report_cells table.now.arena.frame) }
{
    choose_law();
    let mut cells: u64 = 0;
    let mut sum: u64 = 0;
    for cell in ReportCells::of(table.frame()) {
        cells += 1;
        sum += table.bound(cell);
    }
    Totals { cells, sum }
}

fn summary_text(
    alloc: Global,
    m: u64,
    blocks: u64,
    lines: &[u8],
    totals: Totals,
    rebuilt: bool,
) -> Result<Vec<u8>, Memory>
    ensures { IfOk result (λ text.
        text.items ≡ big_text m blocks lines.now totals.cells totals.sum rebuilt) }
{
    let mut text = Vec::new(alloc);
    put_line(&mut text, b"big", m)?;
    put_line(&mut text, b"blocks", blocks)?;
    put(&mut text, lines)?;
    put_line(&mut text, b"cells", totals.cells)?;
    put_line(&mut text, b"sum", totals.sum)?;
    put_rebuilt(&mut text, rebuilt)?;
    Ok(text)
}
