ghost use Rattle.std.specs.Prelude.{◌≡◌, ◌++◌, IfOk, OnOk};
ghost use Rattle.lj_cli.specs.BuildOutput.{at_line, script_fault_line, script_fault_text};

use lj_base::Memory;
use lj_script::ScriptFault;
use lj_text::{put, put_named};
use std::alloc::Global;

// The line for why bytes are no script.
pub(crate) fn script_fault_line(alloc: Global, fault: &ScriptFault) -> Result<Vec<u8>, Memory>
    ensures { IfOk result (λ line. line.items ≡ script_fault_line fault.now) }
{
    let mut line = Vec::new(alloc);
    put(&mut line, b"fault ")?;
    put_script_fault(&mut line, fault)?;
    put(&mut line, b"\n")?;
    Ok(line)
}

// Appends the words for why bytes are no script. That memory ran out has no words.
fn put_script_fault(out: &mut Vec<u8>, fault: &ScriptFault) -> Result<(), Memory>
    ensures { OnOk result (out.new.items ≡ out.old.items ++ script_fault_text fault.now) }
{
    match fault {
        ScriptFault::NoFrame => put(out, b"no frame"),
        ScriptFault::BadLine { line } => put_at_line(out, *line, b" bad line"),
        ScriptFault::BadFrame { line } => put_at_line(out, *line, b" bad frame"),
        ScriptFault::Unended { line } => put_at_line(out, *line, b" no end"),
        ScriptFault::TooManyClients { line } => put_at_line(out, *line, b" too many clients"),
        ScriptFault::TooManyCommands { line } => put_at_line(out, *line, b" too many commands"),
        ScriptFault::Memory => Ok(()),
    }
}

// Appends the number of a line, and what is wrong with it.
pub(crate) fn put_at_line(out: &mut Vec<u8>, line: u64, words: &[u8]) -> Result<(), Memory>
    ensures { OnOk result (out.new.items ≡ out.old.items ++ at_line line words.now) }
{
    put_named(out, b"line", &[line])?;
    put(out, words)
}
