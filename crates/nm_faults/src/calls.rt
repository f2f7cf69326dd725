//! The listed calls at which an object in memory fails: `MemSource`, `MemSink`, `StillTree` and `MemDisk` have it.

ghost use Rattle.std.specs.Prelude.{◌≡◌};
ghost use Rattle.std.specs.Bool.{OnFalse, OnTrue};
ghost use Rattle.nm_faults.specs.Calls.{CallCounts, counted, is_listed, is_next_listed};
ghost use Rattle.nm_faults.specs.Faults.{HasRisen};

use crate::Faults;
use nm_base::Many;
use std::marker::Model;

/// The calls of an object in memory, which fails at listed ones. Counts stop at their type's end.
#[derive(Drop)]
pub struct Calls {
    failing: Many<u64>,
    made: u64,
    faults: Faults,
}

impl Model for Calls {
    ghost use Rattle.nm_faults.specs.Calls.{CallCounts};

    ghost Value = { CallCounts };

    ghost view = { λ c. record { failing = c.failing; made = c.made; faults = c.faults } };
}

impl Calls {
    /// `failing` are the numbers of the calls that are to fail, the first call being 1.
    pub fn new(failing: Many<u64>) -> Calls
        ensures { result ≡ record { failing = failing; made = 0; faults = 0 } }
    {
        Calls {
            failing,
            made: 0,
            faults: Faults::new(),
        }
    }

    /// How many of the calls made were to fail.
    pub fn faults(&self) -> u64
        ensures { result ≡ self.now.faults }
    {
        self.faults.count()
    }

    /// Whether the next call is to fail.
    pub fn is_next_listed(&self) -> bool
        ensures { result ≡ is_next_listed self.now }
    {
        is_in(self.made.saturating_add(1), self.failing.as_slice())
    }

    /// Counts one more call, and answers whether it is to fail.
    pub fn count(&mut self) -> bool
        ensures listed { result ≡ is_next_listed self.old }
        ensures counted { self.new ≡ counted self.old }
        ensures fault { OnTrue result (HasRisen self.old.faults self.new.faults) }
        ensures sound { OnFalse result (self.new.faults ≡ self.old.faults) }
    {
        let fails = self.is_next_listed();
        self.made = self.made.saturating_add(1);
        if fails {
            self.faults.add();
        }
        fails
    }
}

fn is_in(call: u64, failing: &[u64]) -> bool
    ensures { result ≡ is_listed failing.now call }
{
    failing.iter().any(|n| *n == call)
}
