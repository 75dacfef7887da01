ghost use Rattle.std.specs.Prelude.{◌≡◌, ℕ, ◌-◌, ◌<◌, ◌≤◌, ◌↔◌, [], if◌then◌else◌, length, min, take};
ghost use Rattle.std.specs.Prelude.{Contains, IfOk, IsErr, OnErr, OnOk, is_err};
ghost use Rattle.lj_base.specs.InMemory.{FailsAt, one_more};
ghost use Rattle.lj_base.specs.Streams.{Appends, Consumes, IsAtEnd, Keeps, Rose};

use crate::errors::Memory;
use crate::streams::{Failed, Sink, Source};
use std::alloc::Global;
use std::marker::Model;

/// A source over bytes in memory, for tests: it gives them in pieces, and fails at stated calls.
#[derive(Drop)]
pub struct MemSource {
    bytes: Vec<u8>,
    at: usize,
    piece: u64,
    fails: Vec<u64>,
    calls: u64,
    faults: u64,
}

impl Model for MemSource {
    ghost use Rattle.std.specs.Prelude.{◌≤◌, drop, length};
    ghost use Rattle.lj_base.specs.InMemory.{Feed};

    ghost Value = { Feed };

    ghost view = { λ s. record {
      left = drop s.at s.bytes.items;
      piece = s.piece;
      fails = s.fails.items;
      calls = s.calls;
      faults = s.faults;
    } };

    ghost invariant = { λ s. (s.at ≤ length s.bytes.items) × (1 ≤ s.piece) };
}

impl MemSource {
    /// Gives at most `piece` bytes a call, and fails at the calls whose numbers, from 1, are in `fails`.
    pub fn new(bytes: Vec<u8>, piece: u64, fails: Vec<u64>) -> MemSource
        requires { 1 ≤ piece }
        ensures { result ≡ record { left = bytes.items; piece = piece; fails = fails.items; calls = 0; faults = 0 } }
    {
        MemSource {
            bytes,
            at: 0,
            piece,
            fails,
            calls: 0,
            faults: 0,
        }
    }

    /// The number of calls. It stays at the greatest u64 once it is there.
    pub fn calls(&self) -> u64
        ensures { result ≡ self.now.calls }
    {
        self.calls
    }

    /// The number of calls that failed.
    pub fn faults(&self) -> u64
        ensures { result ≡ self.now.faults }
    {
        self.faults
    }
}

/// A sink into memory, for tests: it takes bytes in pieces, and fails at stated calls and where its room is full.
#[derive(Drop)]
pub struct MemSink {
    bytes: Vec<u8>,
    room: u64,
    piece: u64,
    fails: Vec<u64>,
    calls: u64,
    faults: u64,
}

impl Model for MemSink {
    ghost use Rattle.std.specs.Prelude.{◌≤◌, length, vec_capacity};
    ghost use Rattle.lj_base.specs.InMemory.{Store};

    ghost Value = { Store };

    ghost view = { λ s. record {
      written = s.bytes.items;
      room = s.room;
      piece = s.piece;
      fails = s.fails.items;
      calls = s.calls;
      faults = s.faults;
    } };

    ghost invariant = { λ s. (length s.bytes.items ≤ s.room) × (s.room ≤ vec_capacity s.bytes) × (1 ≤ s.piece) };
}

impl MemSink {
    /// Takes its room at once, then at most `piece` bytes a call. For bytes that are not empty it fails at the
    /// calls whose numbers, from 1, are in `fails`, and where its room is full.
    pub fn new(alloc: Global, room: u64, piece: u64, fails: Vec<u64>) -> Result<MemSink, Memory>
        requires { 1 ≤ piece }
        ensures { IfOk result (λ s. s ≡ record {
          written = [];
          room = room;
          piece = piece;
          fails = fails.items;
          calls = 0;
          faults = 0;
        }) }
    {
        let bytes = Vec::with_capacity(alloc, room as usize)?;
        Ok(MemSink {
            bytes,
            room,
            piece,
            fails,
            calls: 0,
            faults: 0,
        })
    }

    /// The bytes that were written.
    pub fn bytes(&self) -> &[u8]
        ensures { result.now ≡ self.now.written }
    {
        &self.bytes
    }

    /// The number of calls. It stays at the greatest u64 once it is there.
    pub fn calls(&self) -> u64
        ensures { result ≡ self.now.calls }
    {
        self.calls
    }

    /// The number of calls that failed.
    pub fn faults(&self) -> u64
        ensures { result ≡ self.now.faults }
    {
        self.faults
    }
}

impl Sink for MemSink {
    ghost use Rattle.std.specs.Prelude.{Some};

    ghost written = { λ s. Some s.written };

    ghost faults = { λ s. s.faults };

    fn write(&mut self, bytes: &[u8]) -> Result<usize, Failed>
        ensures fails { IsErr result ↔ FailsAt self.old (length bytes.now) }
        ensures takes { IfOk result (λ n.
            n ≡ min self.old.piece (min (length bytes.now) (self.old.room - length self.old.written))) }
        ensures calls { self.new.calls ≡ one_more self.old.calls }
        ensures faults { self.new.faults ≡ (if is_err result then one_more self.old.faults else self.old.faults) }
        ensures plan { (self.new.fails ≡ self.old.fails) × (self.new.piece ≡ self.old.piece)
            × (self.new.room ≡ self.old.room) }

        ensures count { IfOk result (λ n. n ≤ length bytes.now) }
        ensures some { IfOk result (λ n. 0 < length bytes.now → 1 ≤ n) }
        ensures none { length bytes.now ≡ 0 → result ≡ Ok 0 }
        ensures bytes { IfOk result (λ n. Appends (Some self.old.written) (Some self.new.written) (take n bytes.now)) }
        ensures nothing { OnErr result (Keeps (Some self.old.written) (Some self.new.written)) }
        ensures quiet { OnOk result (self.new.faults ≡ self.old.faults) }
        ensures failed { OnErr result (Rose self.old.faults self.new.faults) }
        ensures never_falls { self.old.faults ≤ self.new.faults }
    {
        self.calls = self.calls.saturating_add(1);
        if bytes.is_empty() {
            return Ok(0);
        }
        let room = self.room as usize - self.bytes.len();
        if room == 0 || self.fails.contains(&self.calls) {
            self.faults = self.faults.saturating_add(1);
            return Err(Failed);
        }
        let n = (self.piece.min(bytes.len() as u64) as usize).min(room);
        self.bytes.extend_from_slice(&bytes[..n]).unwrap();
        Ok(n)
    }

    fn faults(&self) -> u64 {
        self.faults
    }
}

impl Source for MemSource {
    ghost use Rattle.std.specs.Prelude.{Some};

    ghost left = { λ s. Some s.left };

    ghost faults = { λ s. s.faults };

    fn read(&mut self, buf: &mut [u8]) -> Result<usize, Failed>
        ensures fails { IsErr result ↔ Contains self.old.fails (one_more self.old.calls) }
        ensures gives { IfOk result (λ n. n ≡ min self.old.piece (min (length buf.new) (length self.old.left))) }
        ensures calls { self.new.calls ≡ one_more self.old.calls }
        ensures faults { self.new.faults ≡ (if is_err result then one_more self.old.faults else self.old.faults) }
        ensures plan { (self.new.fails ≡ self.old.fails) × (self.new.piece ≡ self.old.piece) }

        ensures count { IfOk result (λ n. n ≤ length buf.new) }
        ensures bytes { IfOk result (λ n. Consumes (Some self.old.left) (Some self.new.left) (take n buf.new)) }
        ensures end { result ≡ Ok 0 → 0 < length buf.new → IsAtEnd (Some self.new.left) }
        ensures nothing { OnErr result (Keeps (Some self.old.left) (Some self.new.left)) }
        ensures quiet { OnOk result (self.new.faults ≡ self.old.faults) }
        ensures failed { OnErr result (Rose self.old.faults self.new.faults) }
        ensures never_falls { self.old.faults ≤ self.new.faults }
    {
        self.calls = self.calls.saturating_add(1);
        if self.fails.contains(&self.calls) {
            self.faults = self.faults.saturating_add(1);
            return Err(Failed);
        }
        let n = copy_front(&self.bytes[self.at..], self.piece, buf);
        self.at += n;
        Ok(n)
    }

    fn faults(&self) -> u64 {
        self.faults
    }
}

// Copies the front of the bytes that are left, as many as one call gives.
fn copy_front(left: &[u8], piece: u64, buf: &mut [u8]) -> usize
    ensures count { result ≡ min piece (min (length buf.old) (length left.now)) }
    ensures bytes { take result buf.new ≡ take result left.now }
{
    let n = (piece.min(buf.len() as u64) as usize).min(left.len());
    buf[..n].copy_from_slice(&left[..n]);
    n
}
