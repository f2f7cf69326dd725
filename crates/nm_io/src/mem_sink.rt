//! A sink in memory, of which what it took is known, and how much of that it has handed on: `test_session` reads from it what a session
//! printed.

ghost use Rattle.std.specs.Prelude.{◌≡◌, [], ◌&&◌, length, not, is_err, IsErr, IsOk, IsTrue, OnErr, if◌then◌else◌};
ghost use Rattle.nm_base.specs.Limits.{one_more};
ghost use Rattle.nm_faults.specs.Calls.{counted, is_next_listed};
ghost use Rattle.nm_io.specs.Memory.{observed_sink};
ghost use Rattle.nm_io.specs.Observed.{Flushes, Puts};

use crate::Sink;
use nm_base::{Failed, Many};
use nm_faults::{Calls, Faults};
use std::alloc::Global;
use std::marker::Model;

/// A sink in memory, whose bytes are known. It fails at the listed calls, and where it can't grow. A put hands on nothing, and a flush all.
#[derive(Drop)]
pub struct MemSink {
    bytes: Many<u8>,
    handed: usize,
    calls: Calls,
    out_of_memory: Faults,
}

impl Model for MemSink {
    ghost use Rattle.nm_io.specs.Memory.{SinkState};

    ghost Value = { SinkState };

    ghost view = { λ s. record { bytes = s.bytes; handed = s.handed; calls = s.calls; out_of_memory = s.out_of_memory } };
}

impl MemSink {
    /// Empty. `failing` are the numbers of the calls that are to fail, the first call being 1.
    pub fn new(alloc: Global, failing: Many<u64>) -> MemSink
        ensures { result ≡ record { bytes = []; handed = 0; calls = record { failing = failing; made = 0; faults = 0 }; out_of_memory = 0 } }
    {
        MemSink {
            bytes: Many::new(alloc),
            handed: 0,
            calls: Calls::new(failing),
            out_of_memory: Faults::new(),
        }
    }

    /// The bytes taken so far.
    pub fn bytes(&self) -> &[u8]
        ensures { result.now ≡ self.now.bytes }
    {
        self.bytes.as_slice()
    }

    /// How many of them it has handed on.
    pub fn handed(&self) -> usize
        ensures { result ≡ self.now.handed }
    {
        self.handed
    }

    /// How many calls answered `Failed` because there was no memory.
    pub fn out_of_memory(&self) -> u64
        ensures { result ≡ self.now.out_of_memory }
    {
        self.out_of_memory.count()
    }
}

impl Sink for MemSink {
    ghost observed = { observed_sink };

    /// After `Failed` it has appended nothing.
    fn put(&mut self, bytes: &[u8]) -> Result<(), Failed>
        ensures put { Puts (observed_sink self.old) (observed_sink self.new) result bytes.now }
        ensures err { OnErr result (self.new.bytes ≡ self.old.bytes) }
        ensures calls { self.new.calls ≡ counted self.old.calls }
        ensures kept_back { self.new.handed ≡ self.old.handed }

        // It fails at a listed call, or because there was no memory.
        ensures out_of_memory { self.new.out_of_memory ≡ (if is_err result && not (is_next_listed self.old.calls) then one_more self.old.out_of_memory else self.old.out_of_memory) }
        ensures listed { IsTrue (is_next_listed self.old.calls) → IsErr result }
    {
        if self.calls.count() {
            return Err(Failed);
        }
        if self.bytes.extend_from_slice(bytes).is_err() {
            self.out_of_memory.add();
            return Err(Failed);
        }
        Ok(())
    }

    /// This is no call that is counted, and never fails.
    fn flush(&mut self) -> Result<(), Failed>
        ensures flush { Flushes (observed_sink self.old) (observed_sink self.new) result }
        ensures ok { IsOk result }
        ensures handed { self.new ≡ record { bytes = self.old.bytes; handed = length self.old.bytes; calls = self.old.calls; out_of_memory = self.old.out_of_memory } }
    {
        self.handed = self.bytes.len();
        Ok(())
    }
}
