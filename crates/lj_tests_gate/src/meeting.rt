use crate::scripts::{FOUR, FRAME, script_of};
use lj_gate::{Gate, serve};
use std::sync::atomic::{AtomicBool, AtomicU64, Ordering};
use std::test::Fail;

// A gate that holds the first turn of each of two workers until the other one is there.
#[derive(Drop)]
struct Meeting {
    first: AtomicBool,
    second: AtomicBool,
    missed: AtomicU64,
}

impl Gate for Meeting {
    fn before(&self, worker: u64, turn: u64) {
        if turn != 1 {
            return;
        }
        let (mine, other) = if worker == 1 {
            (&self.first, &self.second)
        } else {
            (&self.second, &self.first)
        };
        mine.store(true, Ordering::SeqCst);
        for _ in 0..500_000_000u64 {
            if other.load(Ordering::SeqCst) {
                return;
            }
        }
        self.missed.fetch_add(1, Ordering::SeqCst);
    }

    fn after(&self, _worker: u64, _turn: u64) {}
}

// Two workers run at once: where they ran one after the other, one of them would not see the other's flag.
#[test]
fn two_workers_meet(rt: HostRuntime) -> Result<(), Fail> {
    let alloc = rt.alloc();
    let gate = Meeting {
        first: AtomicBool::new(false),
        second: AtomicBool::new(false),
        missed: AtomicU64::new(0),
    };
    let script = script_of(alloc, &[FRAME, "client ann\n", FOUR])?;
    serve(&rt, alloc, script, 2, &gate)?;
    assert!(rt; gate.first.load(Ordering::SeqCst));
    assert!(rt; gate.second.load(Ordering::SeqCst));
    assert_eq!(rt; gate.missed.load(Ordering::SeqCst), 0);
    Ok(())
}

// What is seen of one worker: whether it is in a turn, and how many turns it has begun.
#[derive(Drop)]
struct Seen {
    inside: AtomicBool,
    turns: AtomicU64,
}

impl Seen {
    fn new() -> Seen {
        Seen {
            inside: AtomicBool::new(false),
            turns: AtomicU64::new(0),
        }
    }

    // The worker begins a turn; whether it was in none, and the turns so far are those before this one.
    fn begins(&self, turn: u64) -> bool {
        let inside = self.inside.swap(true, Ordering::SeqCst);
        let turns = self.turns.fetch_add(1, Ordering::SeqCst);
        !inside && turn == turns.saturating_add(1)
    }

    // The worker ends a turn; whether it was in this one.
    fn ends(&self, turn: u64) -> bool {
        let inside = self.inside.swap(false, Ordering::SeqCst);
        inside && turn == self.turns.load(Ordering::SeqCst)
    }

    // Whether the worker has begun a turn, and is in none.
    fn has_ended(&self) -> bool {
        !self.inside.load(Ordering::SeqCst) && self.turns.load(Ordering::SeqCst) >= 1
    }
}

// Sees the turns of three workers.
#[derive(Drop)]
struct Watching {
    first: Seen,
    second: Seen,
    third: Seen,
    wrong: AtomicBool,
}

impl Watching {
    fn new() -> Watching {
        Watching {
            first: Seen::new(),
            second: Seen::new(),
            third: Seen::new(),
            wrong: AtomicBool::new(false),
        }
    }

    fn seen(&self, worker: u64) -> Option<&Seen> {
        match worker {
            1 => Some(&self.first),
            2 => Some(&self.second),
            3 => Some(&self.third),
            _ => None,
        }
    }

    // Whether all was right so far, and each of the three workers has ended.
    fn has_seen_all(&self) -> bool {
        !self.wrong.load(Ordering::SeqCst)
            && self.first.has_ended()
            && self.second.has_ended()
            && self.third.has_ended()
    }

    // How many turns there were.
    fn turns(&self) -> u64 {
        let first = self.first.turns.load(Ordering::SeqCst);
        let second = self.second.turns.load(Ordering::SeqCst);
        let third = self.third.turns.load(Ordering::SeqCst);
        first.saturating_add(second).saturating_add(third)
    }
}

impl Gate for Watching {
    fn before(&self, worker: u64, turn: u64) {
        let right = match self.seen(worker) {
            Some(seen) => seen.begins(turn),
            None => false,
        };
        if !right {
            self.wrong.store(true, Ordering::SeqCst);
        }
    }

    fn after(&self, worker: u64, turn: u64) {
        let right = match self.seen(worker) {
            Some(seen) => seen.ends(turn),
            None => false,
        };
        if !right {
            self.wrong.store(true, Ordering::SeqCst);
        }
    }
}

// The gate is called before and after each turn of each worker, in turn. Workers are numbered from 1, and so are the
// turns of each. Each worker has a last turn, in which it finds that the run has ended; and there are others.
#[test]
fn each_turn_goes_through_the_gate(rt: HostRuntime) -> Result<(), Fail> {
    let alloc = rt.alloc();
    let gate = Watching::new();
    let script = script_of(alloc, &[FRAME, "client ann\n", FOUR])?;
    serve(&rt, alloc, script, 3, &gate)?;
    assert!(rt; gate.has_seen_all());
    assert!(rt; gate.turns() >= 4);
    Ok(())
}
