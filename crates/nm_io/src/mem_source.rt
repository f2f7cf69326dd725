//! A source in memory, of which what is left is known: `test_session` gives a script by it.

ghost use Rattle.std.specs.Prelude.{◌≡◌, [], length, min, take, is_err, IfOk, IsOk};
ghost use Rattle.nm_faults.specs.Calls.{counted, is_next_listed};
ghost use Rattle.nm_io.specs.Memory.{observed_source};
ghost use Rattle.nm_io.specs.Observed.{Takes};

use crate::Source;
use nm_base::{Failed, Many};
use nm_faults::Calls;
use std::marker::Model;

/// A source over bytes in memory. It fails at the listed calls and at no other, and its bytes are known.
#[derive(Drop)]
pub struct MemSource {
    bytes: Many<u8>,
    at: usize,
    calls: Calls,
}

impl Model for MemSource {
    ghost use Rattle.std.specs.Prelude.{◌≡◌, ◌≤◌, [], drop, length};
    ghost use Rattle.nm_io.specs.Memory.{SourceState};

    ghost Value = { SourceState };

    ghost view = { λ s. record { bytes = drop s.at s.bytes; calls = s.calls } };

    ghost invariant = { λ s. (s.at ≤ length s.bytes) × (s.calls.failing ≡ [] → s.calls.faults ≡ 0) };
}

impl MemSource {
    /// `failing` are the numbers of the calls that are to fail, the first call being 1.
    pub fn new(bytes: Many<u8>, failing: Many<u64>) -> MemSource
        ensures { result ≡ record { bytes = bytes; calls = record { failing = failing; made = 0; faults = 0 } } }
    {
        MemSource {
            bytes,
            at: 0,
            calls: Calls::new(failing),
        }
    }
}

impl Source for MemSource {
    ghost observed = { observed_source };

    /// Gives as many bytes as there are and have room.
    fn take(&mut self, buf: &mut [u8]) -> Result<usize, Failed>
        ensures taken { Takes (observed_source self.old) (observed_source self.new) result buf.new }
        ensures most { IfOk result (λ n. n ≡ min (length self.old.bytes) (length buf.old)) }
        ensures calls { self.new.calls ≡ counted self.old.calls }
        ensures listed { is_err result ≡ is_next_listed self.old.calls }

        // With no listed call it never fails.
        ensures sound { self.old.calls.failing ≡ [] → IsOk result }
        ensures quiet { self.old.calls.failing ≡ [] → self.new.calls.faults ≡ 0 }
    {
        if self.calls.count() {
            return Err(Failed);
        }
        let (_, left) = self.bytes.as_slice().split_at(self.at);
        let n = copy_front(left, buf);
        self.at += n;
        Ok(n)
    }
}

/// Copies the first bytes of `from` over those of `to`, as many as both have.
fn copy_front(from: &[u8], to: &mut [u8]) -> usize
    ensures count { result ≡ min (length from.now) (length to.old) }
    ensures bytes { take result to.new ≡ take result from.now }
{
    let n = from.len().min(to.len());
    to[..n].copy_from_slice(&from[..n]);
    n
}
