//! A count of faults: every sink, source, mail folder and disk has one, of `nm_io`, `nm_maildir` and `nm_disk`.

ghost use Rattle.std.specs.Prelude.{◌≡◌};
ghost use Rattle.nm_base.specs.Limits.{one_more};
ghost use Rattle.nm_faults.specs.Faults.{HasRisen};

use nm_base::Failed;
use std::marker::Model;

/// How often an object has failed. The count stops at its type's end.
#[derive(Drop)]
pub struct Faults {
    count: u64,
}

impl Model for Faults {
    ghost use Rattle.std.specs.Prelude.{ℕ};
    ghost use Rattle.std.specs.Coded.{coded_ℕ};

    ghost Value = { ℕ };

    ghost coded = { coded_ℕ };

    ghost view = { λ f. f.count };
}

impl Faults {
    /// None so far.
    pub fn new() -> Faults
        ensures { result ≡ 0 }
    {
        Faults { count: 0 }
    }

    pub fn count(&self) -> u64
        ensures { result ≡ self.now }
    {
        self.count
    }

    /// Counts one more.
    pub fn add(&mut self)
        ensures count { self.new ≡ one_more self.old }
        ensures risen { HasRisen self.old self.new }
    {
        self.count = self.count.saturating_add(1);
    }

    /// Counts one more, and gives the error that tells of it.
    pub fn failed(&mut self) -> Failed
        ensures count { self.new ≡ one_more self.old }
        ensures risen { HasRisen self.old self.new }
    {
        self.add();
        Failed
    }
}
