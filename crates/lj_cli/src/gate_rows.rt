use crate::rows::words_of;
use crate::serve_rows::READER;
use crate::{big_run, ljcr, serve_run};
use lj_base::{MemSink, MemSource};
use lj_gate::Gate;
use std::alloc::Global;
use std::sync::Wait;
use std::sync::atomic::{AtomicBool, Ordering};
use std::test::Fail;
use std::thread::Threads;

// Notes which workers come through.
#[derive(Drop)]
struct Noting {
    first: AtomicBool,
    second: AtomicBool,
    third: AtomicBool,
    other: AtomicBool,
}

impl Noting {
    fn new() -> Noting {
        Noting {
            first: AtomicBool::new(false),
            second: AtomicBool::new(false),
            third: AtomicBool::new(false),
            other: AtomicBool::new(false),
        }
    }

    // Whether the first three workers came through, and no other.
    fn has_three(&self) -> bool {
        self.first.load(Ordering::SeqCst)
            && self.second.load(Ordering::SeqCst)
            && self.third.load(Ordering::SeqCst)
            && !self.other.load(Ordering::SeqCst)
    }
}

impl Gate for Noting {
    fn before(&self, worker: u64, _turn: u64) {
        let flag = match worker {
            1 => &self.first,
            2 => &self.second,
            3 => &self.third,
            _ => &self.other,
        };
        flag.store(true, Ordering::SeqCst);
    }

    fn after(&self, _worker: u64, _turn: u64) {}
}

// Whether a script is served with status 0 by three workers, who all go through the gate.
fn is_served<R: Threads + Wait + Sync>(rt: &R, alloc: Global) -> Result<bool, Fail> {
    let gate = Noting::new();
    let mut source = MemSource::new(READER.to_vec(alloc)?, 4096, Vec::new(alloc));
    let mut sink = MemSink::new(alloc, 4096, 4096, Vec::new(alloc))?;
    let status = serve_run(rt, alloc, 3, false, &mut source, &mut sink, &gate);
    Ok(status == 0 && gate.has_three())
}

#[test]
fn the_workers_of_a_script_go_through_the_gate(rt: HostRuntime) -> Result<(), Fail> {
    assert!(rt; is_served(&rt, rt.alloc())?);
    Ok(())
}

// Whether a generated script is served so.
fn is_generated_and_served<R: Threads + Wait + Sync>(rt: &R, alloc: Global) -> Result<bool, Fail> {
    let gate = Noting::new();
    let mut sink = MemSink::new(alloc, 4096, 4096, Vec::new(alloc))?;
    let status = big_run(rt, alloc, 2, 3, &mut sink, &gate);
    Ok(status == 0 && gate.has_three())
}

#[test]
fn the_workers_of_a_generated_script_go_through_the_gate(rt: HostRuntime) -> Result<(), Fail> {
    assert!(rt; is_generated_and_served(&rt, rt.alloc())?);
    Ok(())
}

// Whether the words call for three workers, who all go through the gate of the program.
fn calls_for_three<R: Threads + Wait + Sync>(
    rt: &R,
    alloc: Global,
    line: &str,
) -> Result<bool, Fail> {
    let gate = Noting::new();
    let words = words_of(alloc, line)?;
    let mut source = MemSource::new(READER.to_vec(alloc)?, 4096, Vec::new(alloc));
    let mut sink = MemSink::new(alloc, 4096, 4096, Vec::new(alloc))?;
    let status = ljcr(rt, alloc, &words, &mut source, &mut sink, &gate);
    Ok(status == 0 && gate.has_three())
}

#[test]
fn the_workers_that_words_call_for_go_through_the_gate(rt: HostRuntime) -> Result<(), Fail> {
    for line in ["serve --workers 3", "big 2 --workers 3"] {
        assert!(rt; calls_for_three(&rt, rt.alloc(), line)?, "of {line}");
    }
    Ok(())
}
