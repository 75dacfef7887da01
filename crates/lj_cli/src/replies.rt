ghost use Rattle.std.specs.Prelude.{◌≡◌, ◌++◌, IfOk, List, OnOk, length, map};
ghost use Rattle.lj_base.specs.Frames.{size_of};
ghost use Rattle.lj_build.specs.Runs.{IsBuildOutput, client_line, report_of, sections_text};
ghost use Rattle.lj_script.specs.Values.{SectionValue};

use lj_base::{Frame, Memory};
use lj_build::build;
use lj_report::{report_json, report_text};
use lj_script::Script;
use lj_session::SessionEnd;
use lj_table::Table;
use lj_text::put;
use lj_upload::Name;
use std::alloc::Global;
use std::thread::Threads;

// The replies to all sections of a script, and the report.
pub(crate) fn built_text<R: Threads + Sync>(
    rt: &R,
    alloc: Global,
    json: bool,
    script: Script,
) -> Result<Vec<u8>, Memory>
    ensures { IfOk result (λ text. IsBuildOutput script json text.items) }
{
    let names = client_names(alloc, &script)?;
    let built = build(rt, alloc, script)?;
    let mut text = Vec::new(alloc);
    put_replies(&mut text, &names, built.ends.items())?;
    put_bounds(alloc, &mut text, json, &built.table)?;
    Ok(text)
}

// The names of the clients, since the sections themselves are used up when they are built.
pub(crate) fn client_names(alloc: Global, script: &Script) -> Result<Vec<Name>, Memory>
    ensures { IfOk result (λ names. names.items ≡ map (λ s. s.name) script.now.clients) }
{
    let mut names = Vec::new(alloc);
    for section in script.sections() {
        names.push(section.name())?;
    }
    Ok(names)
}

// Appends for each client its line and its replies: the text of the sections that have these names.
pub(crate) fn put_replies(
    out: &mut Vec<u8>,
    names: &[Name],
    ends: &[SessionEnd],
) -> Result<(), Memory>
    ensures { (sections : List SectionValue) → names.now ≡ map (λ s. s.name) sections →
        OnOk result (out.new.items ≡ out.old.items ++ sections_text sections ends.now) }
{
    for (name, end) in names.iter().zip(ends) {
        put_section(out, name.bytes(), end.replies.items())?;
    }
    Ok(())
}

// Appends a client's line and its replies.
fn put_section(out: &mut Vec<u8>, name: &[u8], replies: &[u8]) -> Result<(), Memory>
    ensures { OnOk result (out.new.items ≡ out.old.items ++ (client_line name.now ++ replies.now)) }
{
    put_client_line(out, name)?;
    put(out, replies)
}

fn put_client_line(out: &mut Vec<u8>, name: &[u8]) -> Result<(), Memory>
    ensures { OnOk result (out.new.items ≡ out.old.items ++ client_line name.now) }
{
    put(out, b"client ")?;
    put(out, name)?;
    put(out, b"\n")
}

// Appends the report of a table's bounds.
pub(crate) fn put_bounds(
    alloc: Global,
    out: &mut Vec<u8>,
    json: bool,
    table: &Table,
) -> Result<(), Memory>
    ensures report { OnOk result
        (out.new.items ≡ out.old.items ++ report_of table.now.arena.frame json table.now.bounds) }
    ensures count { length table.now.bounds ≡ size_of table.now.arena.frame }
{
    let bounds = table.bounds();
    put_report(alloc, out, json, table.frame(), bounds)
}

// Appends the report of bounds, as text or as JSON.
fn put_report(
    alloc: Global,
    out: &mut Vec<u8>,
    json: bool,
    frame: Frame,
    bounds: &[u64],
) -> Result<(), Memory>
    requires { length bounds.now ≡ size_of frame }
    ensures { OnOk result (out.new.items ≡ out.old.items ++ report_of frame json bounds.now) }
{
    if json {
        report_json(alloc, frame, bounds, out)
    } else {
        report_text(frame, bounds, out)
    }
}
