ghost use Rattle.std.specs.Prelude.{◌≡◌, ◌++◌, ◌≤◌, IfOk, OnOk};
ghost use Rattle.lj_cli.specs.ServeOutput.{IsServeOutput, rebuilt_line};

use crate::prints::put_line;
use crate::replies::{client_names, put_bounds, put_replies};
use lj_base::Memory;
use lj_build::one_report_law;
use lj_gate::{Gate, serve};
use lj_script::Script;
use lj_verify::MAX_WORKERS;
use std::alloc::Global;
use std::sync::Wait;
use std::thread::Threads;

// The replies to all sections of a script, the closing report, and whether the table was made anew.
pub(crate) fn served_text<R: Threads + Wait + Sync, G: Gate + Sync>(
    rt: &R,
    alloc: Global,
    workers: u64,
    json: bool,
    script: Script,
    gate: &G,
) -> Result<Vec<u8>, Memory>
    requires some_workers { 1 ≤ workers }
    requires few_workers { workers ≤ MAX_WORKERS }
    ensures { IfOk result (λ text. IsServeOutput script json text.items) }
{
    one_report_law();
    let names = client_names(alloc, &script)?;
    let served = serve(rt, alloc, script, workers, gate)?;
    let mut text = Vec::new(alloc);
    put_replies(&mut text, &names, served.ends.items())?;
    put_bounds(alloc, &mut text, json, &served.closed.table)?;
    put_rebuilt(&mut text, served.closed.rebuilt)?;
    Ok(text)
}

// Appends the line of whether the table was made anew.
pub(crate) fn put_rebuilt(out: &mut Vec<u8>, rebuilt: bool) -> Result<(), Memory>
    ensures { OnOk result (out.new.items ≡ out.old.items ++ rebuilt_line rebuilt) }
{
    if rebuilt {
        put_line(out, b"rebuilt", 1)
    } else {
        put_line(out, b"rebuilt", 0)
    }
}
