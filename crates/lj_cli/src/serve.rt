ghost use Rattle.std.specs.Prelude.{◌≤◌, IfOk};
ghost use Rattle.lj_cli.specs.Ends.{Ends, input_of, output_of};
ghost use Rattle.lj_cli.specs.Headline.{HasHeadline};
ghost use Rattle.lj_cli.specs.ServeOutput.{IsServeCommandOutput};

use crate::prints::{Made, end_early, print_made};
use crate::script_faults::script_fault_line;
use crate::serve_laws::headline_law;
use crate::served::served_text;
use crate::status::{DONE, FAULTY};
use lj_base::{MAX_INPUT, Memory, Sink, Source};
use lj_gate::Gate;
use lj_script::{ScriptFault, read_script};
use lj_text::read_all;
use lj_verify::MAX_WORKERS;
use std::alloc::Global;
use std::sync::Wait;
use std::thread::Threads;

/// Reads a script from `input`, serves its sections at once, each as a client of its own, with as many workers, which
/// is also how many threads each check uses, and prints to `out` the replies and the closing report, as text or as
/// JSON, or why the input is no script. Returns the status.
pub fn serve_run<R: Threads + Wait + Sync, S: Source, K: Sink, G: Gate + Sync>(
    rt: &R,
    alloc: Global,
    workers: u64,
    json: bool,
    input: &mut S,
    out: &mut K,
    gate: &G,
) -> u8
    requires some_workers { 1 ≤ workers }
    requires few_workers { workers ≤ MAX_WORKERS }
    ensures ends { Ends (IsServeCommandOutput json) (input_of S.left S.faults input.old input.new)
        (output_of K.written K.faults out.old out.new) result }

    // With status 0 what was printed keeps the promises of the headline.
    ensures headline { HasHeadline json (input_of S.left S.faults input.old input.new)
        (output_of K.written K.faults out.old out.new) result }
{
    headline_law();
    serve_input(rt, alloc, workers, json, input, out, gate)
}

fn serve_input<R: Threads + Wait + Sync, S: Source, K: Sink, G: Gate + Sync>(
    rt: &R,
    alloc: Global,
    workers: u64,
    json: bool,
    input: &mut S,
    out: &mut K,
    gate: &G,
) -> u8
    requires some_workers { 1 ≤ workers }
    requires few_workers { workers ≤ MAX_WORKERS }
    ensures { Ends (IsServeCommandOutput json) (input_of S.left S.faults input.old input.new)
        (output_of K.written K.faults out.old out.new) result }
{
    match read_all(alloc, input, MAX_INPUT) {
        Ok(bytes) => print_made(out, serve_output(rt, alloc, workers, json, &bytes, gate)),
        Err(fail) => end_early(out, fail),
    }
}

// What the bytes of a script come to, or why they are none.
fn serve_output<R: Threads + Wait + Sync, G: Gate + Sync>(
    rt: &R,
    alloc: Global,
    workers: u64,
    json: bool,
    bytes: &[u8],
    gate: &G,
) -> Result<Made, Memory>
    requires some_workers { 1 ≤ workers }
    requires few_workers { workers ≤ MAX_WORKERS }
    ensures { IfOk result (λ made. IsServeCommandOutput json bytes.now made.text.items made.status) }
{
    match read_script(alloc, bytes) {
        Ok(script) => {
            let text = served_text(rt, alloc, workers, json, script, gate)?;
            Ok(Made { text, status: DONE })
        }
        Err(ScriptFault::Memory) => Err(Memory),
        Err(fault) => {
            let text = script_fault_line(alloc, &fault)?;
            Ok(Made {
                text,
                status: FAULTY,
            })
        }
    }
}
