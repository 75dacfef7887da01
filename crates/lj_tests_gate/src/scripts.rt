use lj_base::Cell;
use lj_gate::{FreeGate, Served, serve};
use lj_script::{Script, read_script};
use lj_table::Table;
use lj_verify::MAX_WORKERS;
use std::alloc::Global;
use std::sync::Wait;
use std::test::Fail;
use std::thread::Threads;

pub const FRAME: &str = "frame 7 3 2\n";

/// Four triples of five points that cover their pairs.
pub const FOUR: &str = "upload 5 3 2\n1 2 3\n1 4 5\n2 4 5\n3 4 5\nend\n";

/// Seven triples of seven points that cover their pairs.
pub const SEVEN: &str = "upload 7 3 2\n1 2 4\n2 3 5\n3 4 6\n4 5 7\n1 5 6\n2 6 7\n1 3 7\nend\n";

/// A script of which these are the parts.
pub fn script_of(alloc: Global, parts: &[&str]) -> Result<Script, Fail> {
    let mut text = Vec::new(alloc);
    for part in parts {
        text.extend_from_slice(part.as_bytes())?;
    }
    match read_script(alloc, &text) {
        Ok(script) => Ok(script),
        Err(_) => Err("no script".into()),
    }
}

/// Serves the script of which these are the parts.
pub fn served<R: Threads + Wait + Sync>(
    rt: &R,
    alloc: Global,
    parts: &[&str],
    workers: u64,
) -> Result<Served, Fail> {
    if workers < 1 || workers > MAX_WORKERS {
        return Err("no such number of workers".into());
    }
    Ok(serve(rt, alloc, script_of(alloc, parts)?, workers, &FreeGate)?)
}

/// The numbers of blocks of 3 points for pairs of 4, 5, 6 and 7 points, or 0 where the table has no such cell.
pub fn bounds(table: &Table) -> [u64; 4] {
    [
        bound(table, Cell { v: 4, k: 3, t: 2 }),
        bound(table, Cell { v: 5, k: 3, t: 2 }),
        bound(table, Cell { v: 6, k: 3, t: 2 }),
        bound(table, Cell { v: 7, k: 3, t: 2 }),
    ]
}

fn bound(table: &Table, cell: Cell) -> u64 {
    if table.frame().has(cell) {
        table.bound(cell)
    } else {
        0
    }
}
