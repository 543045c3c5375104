//! A source and a sink in memory, which fail at calls that are chosen.
ghost use Rattle.std.specs.Prelude.{◌≡◌, ◌++◌, ◌<◌, ◌≤◌, ◌↔◌, [], IfOk, IsErr, IsTrue, MatchResult, OnErr, OnOk, Some, false, length, min};
ghost use Rattle.std.specs.Io.{ReadsAtMost, WritesAtMost};
ghost use Rattle.std.specs.Io.KnownBytes.{ReadConsumes, WriteAppends};
ghost use Rattle.wt_trace.specs.Outside.{Rose, after_call, after_failed_write, after_fault, after_success, after_unkept_write, after_write, fails_next, no_calls};

use crate::outside::sure::SureSource;
use crate::outside::{Failed, Sink, Source};
use std::alloc::Global;
use std::marker::Model;

/// The calls: those that are to fail, how many were made, and how many failed.
#[derive(Debug, Drop)]
struct Calls {
    failing: Vec<u64>,
    made: u64,
    faults: u64,
}

impl Model for Calls {
    ghost use Rattle.wt_trace.specs.Outside as outside;

    ghost Value = { outside.Calls };

    ghost view = { λ c. record { failing = c.failing.items; made = c.made; faults = c.faults } };
}

impl Calls {
    fn new(failing: Vec<u64>) -> Calls
        ensures { result ≡ no_calls failing.items }
    {
        Calls {
            failing,
            made: 0,
            faults: 0,
        }
    }

    /// Whether the call that comes next is to fail.
    fn next_fails(&self) -> bool
        ensures { result ≡ fails_next self.now }
    {
        self.failing.contains(&self.made)
    }

    /// Counts a call that didn't fail.
    fn succeed(&mut self)
        ensures { self.new ≡ after_success self.old }
    {
        self.made = self.made.saturating_add(1);
    }

    /// Counts a call that failed.
    fn fail(&mut self)
        ensures calls { self.new ≡ after_fault self.old }
        ensures later { self.old.faults ≤ self.new.faults }
    {
        self.made = self.made.saturating_add(1);
        self.faults = self.faults.saturating_add(1);
    }
}

/// A source of bytes in memory, which fails at chosen calls and at no other. Contracts see the bytes that are left,
/// and its calls.
#[derive(Debug, Drop)]
pub struct MemSource {
    inner: SureSource,
    calls: Calls,
}

impl Model for MemSource {
    ghost use Rattle.wt_trace.specs.Outside.{MemorySource};

    ghost Value = { MemorySource };

    ghost view = { λ s. record { bytes = s.inner; calls = s.calls } };
}

impl MemSource {
    /// All of these bytes are left. The calls of these numbers, counted from 0, will fail.
    pub fn new(bytes: Vec<u8>, failing: Vec<u64>) -> MemSource
        ensures { result ≡ record { bytes = bytes.items; calls = no_calls failing.items } }
    {
        MemSource {
            inner: SureSource::new(bytes),
            calls: Calls::new(failing),
        }
    }

    /// How many reads were made, with those that failed.
    pub fn made(&self) -> u64
        ensures { result ≡ self.now.calls.made }
    {
        self.calls.made
    }
}

impl Source for MemSource {
    ghost left = { λ s. Some s.bytes };

    ghost faults = { λ s. s.calls.faults };

    /// Gives as many bytes as are left and fit, or fails where the number of this call is one that was chosen.
    fn read(&mut self, buf: &mut [u8]) -> Result<usize, Failed>
        ensures bound { ReadsAtMost result buf.new }
        ensures bytes { ReadConsumes (Some self.old.bytes) (Some self.new.bytes) result buf.new }
        ensures later { self.old.calls.faults ≤ self.new.calls.faults }
        ensures failed { OnErr result (Rose self.old.calls.faults self.new.calls.faults) }
        ensures same { OnOk result (self.new.calls.faults ≡ self.old.calls.faults) }
        ensures chosen { IsErr result ↔ IsTrue (fails_next self.old.calls) }
        ensures count { IfOk result (λ count. count ≡ min (length buf.new) (length self.old.bytes)) }
        ensures calls { self.new.calls ≡ after_call self.old.calls }
    {
        if self.calls.next_fails() {
            self.calls.fail();
            return Err(Failed);
        }
        self.calls.succeed();
        self.inner.read(buf)
    }
}

/// A sink in memory, which fails at chosen calls, and where no memory is there for the bytes. Contracts
/// see the bytes that it took, its calls, and how many of them found no memory.
#[derive(Debug, Drop)]
pub struct MemSink {
    written: Vec<u8>,
    calls: Calls,
    unkept: u64,
}

impl Model for MemSink {
    ghost use Rattle.wt_trace.specs.Outside.{MemorySink};

    ghost Value = { MemorySink };

    ghost view = { λ s. record { bytes = s.written.items; calls = s.calls; unkept = s.unkept } };
}

impl MemSink {
    /// Nothing was taken. The calls of these numbers, counted from 0, will fail.
    pub fn new(alloc: Global, failing: Vec<u64>) -> MemSink
        ensures { result ≡ record { bytes = []; calls = no_calls failing.items; unkept = 0 } }
    {
        MemSink {
            written: Vec::new(alloc),
            calls: Calls::new(failing),
            unkept: 0,
        }
    }

    /// The bytes that it took.
    pub fn written(&self) -> &[u8]
        ensures { result.now ≡ self.now.bytes }
    {
        self.written.as_slice()
    }

    /// How many writes were made, with those that failed.
    pub fn made(&self) -> u64
        ensures { result ≡ self.now.calls.made }
    {
        self.calls.made
    }

    /// How many writes failed since no memory was there for their bytes.
    pub fn unkept(&self) -> u64
        ensures { result ≡ self.now.unkept }
    {
        self.unkept
    }
}

impl Sink for MemSink {
    ghost took = { λ s. Some s.bytes };

    ghost faults = { λ s. s.calls.faults };

    /// Takes the whole piece, or fails where the number of this call is one that was chosen, and else only where no
    /// memory is there for the piece, which it counts.
    fn write(&mut self, piece: &[u8]) -> Result<usize, Failed>
        ensures bound { WritesAtMost result piece.now }
        ensures some { IfOk result (λ n. 0 < length piece.now → 0 < n) }
        ensures bytes { WriteAppends (Some self.old.bytes) (Some self.new.bytes) result piece.now }
        ensures later { self.old.calls.faults ≤ self.new.calls.faults }
        ensures failed { OnErr result (Rose self.old.calls.faults self.new.calls.faults) }
        ensures same { OnOk result (self.new.calls.faults ≡ self.old.calls.faults) }
        ensures whole { IfOk result (λ count. count ≡ length piece.now) }
        ensures chosen { IsTrue (fails_next self.old.calls) → IsErr result × (self.new ≡ after_failed_write self.old) }
        ensures others { fails_next self.old.calls ≡ false
            → MatchResult result (λ _. self.new ≡ after_write self.old piece.now) (λ _. self.new ≡ after_unkept_write self.old) }
    {
        if self.calls.next_fails() {
            self.calls.fail();
            return Err(Failed);
        }
        match self.written.extend_from_slice(piece) {
            Ok(()) => {
                self.calls.succeed();
                Ok(piece.len())
            }
            Err(_) => {
                self.calls.fail();
                self.unkept = self.unkept.saturating_add(1);
                Err(Failed)
            }
        }
    }
}
