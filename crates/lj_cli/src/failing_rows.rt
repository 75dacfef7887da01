use crate::ljcr;
use crate::rows::{FOUR, words_of};
use lj_base::{MemSink, MemSource};
use lj_gate::FreeGate;
use std::alloc::Global;
use std::sync::Wait;
use std::test::Fail;
use std::thread::Threads;

// A command, how often it reads the four triples and how often it writes, both in pieces of eight bytes, and what it
// prints.
struct Row {
    line: &'static str,
    reads: u64,
    writes: u64,
    text: &'static [u8],
}

const ROWS: [Row; 4] = [
    Row {
        line: "excess 5 3 2",
        reads: 4,
        writes: 8,
        text: b"blocks 4\nschonheim 4\ntsets 10\nmarks 12\nexcess 2\nonce 9\nmost 3\n",
    },
    Row {
        line: "reduce 5 3 2",
        reads: 4,
        writes: 4,
        text: b"5 3 2 4\n1 2 3\n1 4 5\n2 4 5\n3 4 5\n",
    },
    Row {
        line: "greedy 5 3 2",
        reads: 0,
        writes: 4,
        text: b"5 3 2 4\n1 2 3\n1 4 5\n2 3 4\n2 3 5\n",
    },
    Row {
        line: "big 2 --workers 2",
        reads: 0,
        writes: 9,
        text: b"big 2\nblocks 1\nbound 4 4 3 1\nbound 3 3 2 1\ncells 4\nsum 9\nrebuilt 0\n",
    },
];

// The status of a command on the four triples, and what was written, where the read or the write of this number fails.
fn run_failing<R: Threads + Wait + Sync>(
    rt: &R,
    alloc: Global,
    line: &str,
    read: u64,
    write: u64,
) -> Result<(u8, MemSink), Fail> {
    let words = words_of(alloc, line)?;
    let mut source = MemSource::new(FOUR.to_vec(alloc)?, 8, vec![in alloc; read]?);
    let mut sink = MemSink::new(alloc, 4096, 8, vec![in alloc; write]?)?;
    let status = ljcr(rt, alloc, &words, &mut source, &mut sink, &FreeGate);
    Ok((status, sink))
}

// Whether the command ends with status 4 and writes nothing where one of its reads fails, and makes no further read.
fn stops_at_each_read<R: Threads + Wait + Sync>(
    rt: &R,
    alloc: Global,
    row: &Row,
) -> Result<bool, Fail> {
    for read in 0..row.reads {
        let (status, sink) = run_failing(rt, alloc, row.line, read.saturating_add(1), 0)?;
        if status != 4 || !sink.bytes().is_empty() {
            return Ok(false);
        }
    }
    let (status, sink) = run_failing(rt, alloc, row.line, row.reads.saturating_add(1), 0)?;
    Ok(status == 0 && sink.bytes() == row.text)
}

// Whether the command ends with status 5 where one of its writes fails, when just the pieces before it are written, and
// makes no further write.
fn stops_at_each_write<R: Threads + Wait + Sync>(
    rt: &R,
    alloc: Global,
    row: &Row,
) -> Result<bool, Fail> {
    for write in 0..row.writes {
        let (status, sink) = run_failing(rt, alloc, row.line, 0, write.saturating_add(1))?;
        let bytes = sink.bytes();
        let before = bytes.len() as u64 == write.saturating_mul(8) && row.text.starts_with(bytes);
        if status != 5 || !before {
            return Ok(false);
        }
    }
    let (status, sink) = run_failing(rt, alloc, row.line, 0, row.writes.saturating_add(1))?;
    Ok(status == 0 && sink.bytes() == row.text)
}

#[test]
fn commands_stop_at_each_read_that_fails(rt: HostRuntime) -> Result<(), Fail> {
    for row in &ROWS {
        assert!(rt;
            stops_at_each_read(&rt, rt.alloc(), row)?,
            "of {}",
            row.line
        );
    }
    Ok(())
}

#[test]
fn commands_stop_at_each_write_that_fails(rt: HostRuntime) -> Result<(), Fail> {
    for row in &ROWS {
        assert!(rt;
            stops_at_each_write(&rt, rt.alloc(), row)?,
            "of {}",
            row.line
        );
    }
    Ok(())
}
