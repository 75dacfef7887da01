ghost use Rattle.std.specs.Prelude.{IfOk};
ghost use Rattle.lj_cli.specs.BuildOutput.{IsBuildCommandOutput};
ghost use Rattle.lj_cli.specs.Ends.{Ends, input_of, output_of};

use crate::prints::{Made, end_early, print_made};
use crate::replies::built_text;
use crate::script_faults::script_fault_line;
use crate::status::{DONE, FAULTY};
use lj_base::{MAX_INPUT, Memory, Sink, Source};
use lj_script::{ScriptFault, read_script};
use lj_text::read_all;
use std::alloc::Global;
use std::thread::Threads;

/// Reads a script from `input`, and prints to `out` the replies to its sections and the report, as text or as JSON, or
/// why it is no script. Returns the status.
pub fn build_run<R: Threads + Sync, S: Source, K: Sink>(
    rt: &R,
    alloc: Global,
    json: bool,
    input: &mut S,
    out: &mut K,
) -> u8
    ensures { Ends (IsBuildCommandOutput json) (input_of S.left S.faults input.old input.new)
        (output_of K.written K.faults out.old out.new) result }
{
    match read_all(alloc, input, MAX_INPUT) {
        Ok(bytes) => print_made(out, build_output(rt, alloc, json, &bytes)),
        Err(fail) => end_early(out, fail),
    }
}

// What the bytes of a script come to, or why they are none.
fn build_output<R: Threads + Sync>(
    rt: &R,
    alloc: Global,
    json: bool,
    bytes: &[u8],
) -> Result<Made, Memory>
    ensures { IfOk result (λ made. IsBuildCommandOutput json bytes.now made.text.items made.status) }
{
    match read_script(alloc, bytes) {
        Ok(script) => {
            let text = built_text(rt, alloc, json, script)?;
            Ok(Made { text, status: DONE })
        }
        Err(ScriptFault::Memory) => Err(Memory),
        Err(fault) => {
            let text = script_fault_line(alloc, &fault)?;
            Ok(Made {
                text,
                status: FAULTY,
            })
        }
    }
}
