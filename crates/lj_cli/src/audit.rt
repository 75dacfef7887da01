ghost use Rattle.std.specs.Prelude.{◌≤◌, IfOk};
ghost use Rattle.lj_cert.specs.Values.{IsFormed};
ghost use Rattle.lj_cli.specs.AuditOutput.{IsAuditOutput, IsAudited};
ghost use Rattle.lj_cli.specs.Ends.{EndsWithin, input_of, output_of};

use crate::audit_lines::{cert_fault_line, no_line, rest_line, upload_names};
use crate::limits::MAX_CERT_INPUT;
use crate::prints::{Made, end_early, print_made};
use crate::status::{DONE, FAULTY, NOT_GOOD};
use lj_base::{Memory, Sink, Source};
use lj_cert::{Cert, CertFault, No, audit, read_cert};
use lj_text::read_all;
use lj_verify::MAX_WORKERS;
use std::alloc::Global;
use std::thread::Threads;

/// Reads a certificate from `input`, and prints to `out` whether it is good, why it is not, or why the input is no
/// certificate. Its uploads are checked and its cells are gone through by as many threads. Returns the status.
pub fn audit_run<R: Threads + Sync, S: Source, K: Sink>(
    rt: &R,
    alloc: Global,
    workers: u64,
    input: &mut S,
    out: &mut K,
) -> u8
    requires some_workers { 1 ≤ workers }
    requires few_workers { workers ≤ MAX_WORKERS }
    ensures { EndsWithin MAX_CERT_INPUT IsAuditOutput (input_of S.left S.faults input.old input.new)
        (output_of K.written K.faults out.old out.new) result }
{
    match read_all(alloc, input, MAX_CERT_INPUT) {
        Ok(bytes) => print_made(out, audit_output(rt, alloc, workers, &bytes)),
        Err(fail) => end_early(out, fail),
    }
}

// What the bytes of a certificate come to, or why they are none.
fn audit_output<R: Threads + Sync>(
    rt: &R,
    alloc: Global,
    workers: u64,
    bytes: &[u8],
) -> Result<Made, Memory>
    requires some_workers { 1 ≤ workers }
    requires few_workers { workers ≤ MAX_WORKERS }
    ensures { IfOk result (λ made. IsAuditOutput bytes.now made.text.items made.status) }
{
    match read_cert(alloc, bytes) {
        Ok(cert) => audited(rt, alloc, workers, cert),
        Err(CertFault::Memory) => Err(Memory),
        Err(fault) => {
            let text = cert_fault_line(alloc, &fault)?;
            Ok(Made {
                text,
                status: FAULTY,
            })
        }
    }
}

// What is printed of a certificate. The names of its uploads are copied, since it is used up.
fn audited<R: Threads + Sync>(
    rt: &R,
    alloc: Global,
    workers: u64,
    cert: Cert,
) -> Result<Made, Memory>
    requires some_workers { 1 ≤ workers }
    requires few_workers { workers ≤ MAX_WORKERS }
    ensures audited { IfOk result (λ made. IsAudited cert made.text.items made.status) }
    ensures formed { IfOk result (λ _. IsFormed cert.frame cert.uploads cert.bounds) }
{
    let names = upload_names(alloc, cert.uploads.items())?;
    match audit(rt, alloc, cert, workers) {
        Ok(rest) => {
            let text = rest_line(alloc, &rest)?;
            Ok(Made { text, status: DONE })
        }
        Err(No::Memory) => Err(Memory),
        Err(why) => {
            let text = no_line(alloc, &names, &why)?;
            Ok(Made {
                text,
                status: NOT_GOOD,
            })
        }
    }
}
