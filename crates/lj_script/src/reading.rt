ghost use Rattle.std.specs.Prelude.{◌≡◌, ◌⊎◌, ◌≤◌, ◌∷◌, IfErr, IfOk, MatchResult, OnOk, length};
ghost use Rattle.std.specs.List.{AllByRecursion};
ghost use Rattle.lj_text.specs.Lines.{IsLineOf, StandFrom};
ghost use Rattle.lj_script.specs.Items.{AddsItem, TakesFrame};
ghost use Rattle.lj_script.specs.Faults.{IsFaulty, IsFrameFault, IsScriptFault};
ghost use Rattle.lj_script.specs.Scripts.{IsScript};
ghost use Rattle.lj_script.specs.Values.{ScriptValue};
ghost use Rattle.lj_script.specs.declared.faults.ScriptFault.{ScriptFault};

use crate::bodies::{read_body, text_of};
use crate::faults::ScriptFault;
use crate::forms::{Form, form_of, is_word, rest_cell};
use crate::growing::{add_client, check_room, push_command};
use crate::laws::script_law;
use crate::limits::MAX_CLIENTS;
use crate::scripts::{Command, Script, Section, Sections};
use lj_base::Frame;
use lj_text::{Line, Lines, Words, line_order_law};
use std::alloc::Global;

/// Reads a script: a line `frame V K T`, and for each client a line `client NAME` and its commands. The first line
/// with a fault decides. It goes over the bytes a few times, and copies each upload's body once.
pub fn read_script(alloc: Global, bytes: &[u8]) -> Result<Script, ScriptFault>
    ensures script { IfOk result (IsScript bytes.now) }
    ensures fault { IfErr result (λ fault. (fault ≡ ScriptFault.Memory) ⊎ IsScriptFault bytes.now fault) }

    // The script that the bytes spell is returned, or the fault that they have, unless memory runs out.
    ensures complete { (script : ScriptValue) → IsScript bytes.now script
        → MatchResult result (λ read. read ≡ script) (λ fault. fault ≡ ScriptFault.Memory) }
    ensures exact { (fault : ScriptFault) → IsScriptFault bytes.now fault
        → MatchResult result (λ _. ⊥) (λ found. (found ≡ fault) ⊎ (found ≡ ScriptFault.Memory)) }
{
    script_law();
    line_order_law();
    let mut lines = Lines::of(bytes);
    let frame = read_frame(bytes, &mut lines)?;
    let mut sections = Vec::new(alloc);
    while let Some(line) = lines.next() {
        read_item(alloc, bytes, &line, &mut lines, &mut sections)?;
    }
    Ok(Script {
        frame,
        clients: Sections::of(sections),
    })
}

// The frame that the first line names.
fn read_frame(bytes: &[u8], lines: &mut Lines) -> Result<Frame, ScriptFault>
    requires { AllByRecursion (IsLineOf bytes.now) lines.old }
    ensures frame { IfOk result (λ frame. TakesFrame bytes.now frame lines.old lines.new) }
    ensures fault { IfErr result (IsFrameFault bytes.now lines.old) }
{
    let Some(line) = lines.next() else {
        return Err(ScriptFault::NoFrame);
    };
    let mut words = Words::of(text_of(bytes, &line));
    match words.next() {
        Some(first) if is_word(first, b"frame") => {}
        _ => return Err(ScriptFault::NoFrame),
    }
    match rest_cell(words) {
        Some(top) => Ok(Frame::new(top)),
        None => Err(ScriptFault::BadFrame { line: line.number }),
    }
}

// Reads the item that a line begins: a client's line, or a command with its lines.
fn read_item(
    alloc: Global,
    bytes: &[u8],
    line: &Line,
    rest: &mut Lines,
    sections: &mut Vec<Section>,
) -> Result<(), ScriptFault>
    requires lines { StandFrom bytes.now 0 (line.now ∷ rest.old) }
    requires few { length sections.old.items ≤ MAX_CLIENTS }
    ensures item { OnOk result
        (AddsItem bytes.now (line.now ∷ rest.old) rest.new sections.old.items sections.new.items) }
    ensures fault { IfErr result (λ fault. (fault ≡ ScriptFault.Memory)
        ⊎ IsFaulty bytes.now sections.old.items line.now rest.old fault) }
{
    let number = line.number;
    let Some(form) = form_of(text_of(bytes, line)) else {
        return Err(ScriptFault::BadLine { line: number });
    };
    match form {
        Form::Client(name) => add_client(alloc, sections, name, number),
        Form::Upload(cell) => {
            check_room(sections, number)?;
            let body = read_body(alloc, bytes, line, rest)?;
            push_command(sections, Command::Upload { cell, body })
        }
        Form::UploadFile => {
            check_room(sections, number)?;
            let body = read_body(alloc, bytes, line, rest)?;
            push_command(sections, Command::UploadFile { body })
        }
        Form::Ask(command) => {
            check_room(sections, number)?;
            push_command(sections, command)
        }
    }
}
