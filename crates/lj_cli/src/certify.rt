ghost use Rattle.std.specs.Prelude.{ℕ, List, IfOk};
ghost use Rattle.lj_base.specs.Cells.{IsCell};
ghost use Rattle.lj_script.specs.Scripts.{IsScript};
ghost use Rattle.lj_table.specs.Tables.{AreLeast};
ghost use Rattle.lj_cli.specs.CertifyOutput.{AreCheckedIn, IsCertificateOf, IsCertifyOutput, IsScriptCertificate};
ghost use Rattle.lj_cli.specs.Ends.{Ends, input_of, output_of};

use crate::prints::{Made, end_early, print_made};
use crate::script_faults::script_fault_line;
use crate::status::{DONE, FAULTY};
use lj_base::{Frame, MAX_INPUT, Memory, Sink, Source, cells_law};
use lj_build::build;
use lj_cert::{forests_are_writable, write_cert, written_certificates_are_good};
use lj_script::{Script, ScriptFault, read_script};
use lj_table::Table;
use lj_text::read_all;
use std::alloc::Global;
use std::thread::Threads;

/// Reads a script from `input`, and prints to `out` the certificate of its accepted uploads: a derivation for each cell
/// of the frame and its least bound, or why the input is no script. Returns the status.
pub fn certify_run<R: Threads + Sync, S: Source, K: Sink>(
    rt: &R,
    alloc: Global,
    input: &mut S,
    out: &mut K,
) -> u8
    ensures { Ends IsCertifyOutput (input_of S.left S.faults input.old input.new)
        (output_of K.written K.faults out.old out.new) result }
{
    match read_all(alloc, input, MAX_INPUT) {
        Ok(bytes) => print_made(out, certify_output(rt, alloc, &bytes)),
        Err(fail) => end_early(out, fail),
    }
}

// What the bytes of a script come to, or why they are none.
fn certify_output<R: Threads + Sync>(rt: &R, alloc: Global, bytes: &[u8]) -> Result<Made, Memory>
    ensures { IfOk result (λ made. IsCertifyOutput bytes.now made.text.items made.status) }
{
    match read_script(alloc, bytes) {
        Ok(script) => {
            let text = certified_text(rt, alloc, script)?;
            Ok(Made { text, status: DONE })
        }
        Err(ScriptFault::Memory) => Err(Memory),
        Err(fault) => {
            let text = script_fault_line(alloc, &fault)?;
            Ok(Made {
                text,
                status: FAULTY,
            })
        }
    }
}

// The certificate of what the sections of a script come to. The replies are not printed.
fn certified_text<R: Threads + Sync>(
    rt: &R,
    alloc: Global,
    script: Script,
) -> Result<Vec<u8>, Memory>
    requires { (bytes : List ℕ) × IsScript bytes script }
    ensures { IfOk result (λ text. IsScriptCertificate script text.items) }
{
    let built = build(rt, alloc, script)?;
    table_text(alloc, &built.table)
}

// The certificate of a table's uploads and bounds, where these are the least.
fn table_text(alloc: Global, table: &Table) -> Result<Vec<u8>, Memory>
    requires checked { AreCheckedIn table.now.arena.frame table.now.arena.uploads }
    requires least { AreLeast table.now }
    ensures { IfOk result (λ text. IsCertificateOf table.now.arena.frame table.now.arena.uploads text.items) }
{
    cells_law();
    let forest = table.forest(alloc)?;
    let frame = table.frame();
    top_law(frame);
    let uploads = table.accepted();
    let bounds = table.bounds();
    forests_are_writable(frame, uploads, &forest, bounds);
    written_certificates_are_good(frame, uploads, &forest, bounds);
    let mut text = Vec::new(alloc);
    write_cert(frame, uploads, &forest, bounds, &mut text)?;
    Ok(text)
}

// The greatest numbers of a frame are those of a cell.
fn top_law(frame: Frame)
    ensures { IsCell frame.top }
{
    let _ = frame.top.v;
}
