ghost use Rattle.lj_gen.specs.Generated.{gen_text};
ghost use Rattle.lj_cli.specs.AuditOutput.{IsAuditOutput};
ghost use Rattle.lj_cli.specs.BigOutput.{IsBigCommandOutput};
ghost use Rattle.lj_cli.specs.BuildOutput.{IsBuildCommandOutput};
ghost use Rattle.lj_cli.specs.CertifyOutput.{IsCertifyOutput};
ghost use Rattle.lj_cli.specs.CheckOutput.{IsCheckOutput};
ghost use Rattle.lj_cli.specs.CountOutput.{IsExcessOutput, IsGreedyOutput, IsReduceOutput};
ghost use Rattle.lj_cli.specs.Ends.{Ends, EndsUnread, EndsWithOutput, EndsWithText, EndsWithUsage, EndsWithin};
ghost use Rattle.lj_cli.specs.Ends.{input_of, output_of};
ghost use Rattle.lj_cli.specs.GoodWords.{GoodWords, TakesNumbers, texts};
ghost use Rattle.lj_cli.specs.Headline.{HasHeadline};
ghost use Rattle.lj_cli.specs.Running.{EndsAs};
ghost use Rattle.lj_cli.specs.ServeOutput.{IsServeCommandOutput};

use crate::audit::audit_run;
use crate::big::big_run;
use crate::build::build_run;
use crate::certify::certify_run;
use crate::check::check_run;
use crate::excess::excess_run;
use crate::generate::gen_run;
use crate::greedy::greedy_run;
use crate::limits::MAX_CERT_INPUT;
use crate::prints::print_usage;
use crate::reduce::reduce_run;
use crate::serve::serve_run;
use crate::words::{Call, read_words};
use lj_base::{Sink, Source};
use lj_gate::Gate;
use std::alloc::Global;
use std::sync::Wait;
use std::thread::Threads;

/// Runs the command that the words after the program's name call for. Returns the status.
pub fn ljcr<R: Threads + Wait + Sync, S: Source, K: Sink, G: Gate + Sync>(
    rt: &R,
    alloc: Global,
    words: &[String],
    input: &mut S,
    out: &mut K,
    gate: &G,
) -> u8
    // Words that call for a check end as a check of that cell ends.
    ensures check { (call : _) → GoodWords (texts words.now) (Call.Check call) →
        Ends (IsCheckOutput call.cell) (input_of S.left S.faults input.old input.new)
        (output_of K.written K.faults out.old out.new) result }

    // Words that call for a build end as a build ends, with its report as JSON where that is asked for.
    ensures build { (json : _) → GoodWords (texts words.now) (Call.Build json) →
        Ends (IsBuildCommandOutput json) (input_of S.left S.faults input.old input.new)
        (output_of K.written K.faults out.old out.new) result }

    // Words that call for serving a script end as that ends, with its report as JSON where that is asked for.
    ensures serve { (call : _) → GoodWords (texts words.now) (Call.Serve call) →
        Ends (IsServeCommandOutput call.json) (input_of S.left S.faults input.old input.new)
        (output_of K.written K.faults out.old out.new) result }

    // The headline: with status 0 what was printed keeps its promises.
    ensures headline { (call : _) → GoodWords (texts words.now) (Call.Serve call) →
        HasHeadline call.json (input_of S.left S.faults input.old input.new)
        (output_of K.written K.faults out.old out.new) result }

    // Words that call for serving a generated script end with a summary of that, and nothing is read.
    ensures big { (call : _) → GoodWords (texts words.now) (Call.Big call) →
        EndsUnread (EndsWithOutput (IsBigCommandOutput call.m)) (input_of S.left S.faults input.old input.new)
        (output_of K.written K.faults out.old out.new) result }

    // Words that call for a generated script end with it, and nothing is read.
    ensures generated { (m : _) → GoodWords (texts words.now) (Call.Gen m) →
        EndsUnread (EndsWithText (gen_text m)) (input_of S.left S.faults input.old input.new)
        (output_of K.written K.faults out.old out.new) result }

    // Words that call for the excess of a covering end with its sums, or with why the input is no covering.
    ensures excess { (cell : _) → GoodWords (texts words.now) (Call.Excess cell) →
        Ends (IsExcessOutput cell) (input_of S.left S.faults input.old input.new)
        (output_of K.written K.faults out.old out.new) result }

    // Words that call for a greedy covering end with it, or with the number of sets that are too many; nothing is read.
    ensures greedy { (cell : _) → GoodWords (texts words.now) (Call.Greedy cell) →
        EndsUnread (EndsWithOutput (IsGreedyOutput cell)) (input_of S.left S.faults input.old input.new)
        (output_of K.written K.faults out.old out.new) result }

    // Words that call for a covering without spare blocks end with it, or with why the input is no covering.
    ensures reduced { (cell : _) → GoodWords (texts words.now) (Call.Reduce cell) →
        Ends (IsReduceOutput cell) (input_of S.left S.faults input.old input.new)
        (output_of K.written K.faults out.old out.new) result }

    // Words that call for a certificate end with that of the script's accepted uploads, or with the script's fault.
    ensures certified { GoodWords (texts words.now) Call.Certify →
        Ends IsCertifyOutput (input_of S.left S.faults input.old input.new)
        (output_of K.written K.faults out.old out.new) result }

    // Words that call for an audit end with whether the input's certificate is good, whatever the number of workers.
    ensures audited { (workers : _) → GoodWords (texts words.now) (Call.Audit workers) →
        EndsWithin MAX_CERT_INPUT IsAuditOutput (input_of S.left S.faults input.old input.new)
        (output_of K.written K.faults out.old out.new) result }

    // Words that call for no command end with the usage line.
    ensures usage { ((call : _) → GoodWords (texts words.now) call → ⊥) →
        EndsWithUsage (input_of S.left S.faults input.old input.new) (output_of K.written K.faults out.old out.new)
        result }
{
    match read_words(words) {
        Some(call) => run_call(rt, alloc, call, input, out, gate),
        None => print_usage(out),
    }
}

// Runs a command.
fn run_call<R: Threads + Wait + Sync, S: Source, K: Sink, G: Gate + Sync>(
    rt: &R,
    alloc: Global,
    call: Call,
    input: &mut S,
    out: &mut K,
    gate: &G,
) -> u8
    requires { TakesNumbers call }
    ensures { EndsAs call (input_of S.left S.faults input.old input.new)
        (output_of K.written K.faults out.old out.new) result }
{
    match call {
        Call::Check(check) => check_run(rt, alloc, check.cell, check.workers, input, out),
        Call::Build { json } => build_run(rt, alloc, json, input, out),
        Call::Serve(serve) => serve_run(rt, alloc, serve.workers, serve.json, input, out, gate),
        Call::Gen { m } => gen_run(alloc, m, out),
        Call::Big(big) => big_run(rt, alloc, big.m, big.workers, out, gate),
        Call::Excess { cell } => excess_run(rt, alloc, cell, input, out),
        Call::Greedy { cell } => greedy_run(alloc, cell, out),
        Call::Reduce { cell } => reduce_run(rt, alloc, cell, input, out),
        Call::Certify => certify_run(rt, alloc, input, out),
        Call::Audit { workers } => audit_run(rt, alloc, workers, input, out),
    }
}
