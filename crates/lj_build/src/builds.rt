ghost use Rattle.std.specs.Prelude.{◌≡◌, IfOk};
ghost use Rattle.lj_build.specs.Building.{IsWholeBuilt};

use crate::driving::build_section;
use crate::ends::Ends;
use lj_base::Memory;
use lj_script::Script;
use lj_table::Table;
use std::alloc::Global;
use std::thread::Threads;

/// The ends of the sections, in order, and the table at rest over all their accepted uploads.
#[derive(Drop)]
pub struct Built {
    pub ends: Ends,
    pub table: Table,
}

/// Builds the sections of a script in order over one table, which is at rest before each command. It starts no thread
/// of its own.
pub fn build<R: Threads + Sync>(rt: &R, alloc: Global, script: Script) -> Result<Built, Memory>
    ensures { IfOk result (λ built. IsWholeBuilt script built.ends built.table) }
{
    let _few = script.sections();
    let Script { frame, clients } = script;
    let mut table = Table::start(alloc, frame)?;
    table.settle(alloc)?;
    let mut ends = Vec::new(alloc);
    for section in clients.into_vec() {
        let end = build_section(rt, alloc, frame, section, &mut table)?;
        ends.push(end)?;
    }
    Ok(Built {
        ends: Ends::of(ends),
        table,
    })
}
