//! Where hashes lead, for `hashed_map`. Hashes fall anywhere, so pairs in small runs would all be copied one by one.

ghost use Rattle.std.specs.Prelude.{◌≡◌, ◌++◌, [], ℕ, IfOk, OnOk, OnErr, Some, if◌then◌else◌};
ghost use Rattle.std.specs.Ordering.{is_eq, nat_cmp};
ghost use Rattle.nm_shared.specs.Hashed.{at};

use crate::SharedMap;
use crate::long::Long;
use nm_base::NoMemory;
use std::alloc::Global;
use std::marker::Model;

/// This many pairs are late before they join the others.
const MAX_LATE: usize = 2_048;

/// This many pairs are in the middle at least before they join the early ones.
const MIN_MIDDLE: usize = 32_768;

/// And one for this many of the early ones, so that each pair is moved a bounded number of times while these double.
const EARLY_PER_MIDDLE: usize = 16;

/// The slot to which each hash leads. A contract sees it as pairs of which the first one with a hash counts.
#[derive(Drop)]
pub struct Places {
    /// What came lately: few runs, so that few are copied when it changes.
    late: SharedMap<u64, u64>,
    /// What came before.
    older: Older,
}

/// What came before the late ones: two long runs, so that a clone counts two. The late ones join the shorter.
#[derive(Drop)]
struct Older {
    middle: Long,
    early: Long,
}

impl Model for Places {
    ghost use Rattle.std.specs.Prelude.{ℕ, List, ◌++◌};
    ghost use Rattle.std.specs.Coded.{coded_list, coded×, coded_ℕ};

    ghost Value = { List (ℕ × ℕ) };

    ghost coded = { coded_list (coded× coded_ℕ coded_ℕ) };

    ghost view = { λ p. p.late ++ p.older };
}

impl Model for Older {
    ghost use Rattle.std.specs.Prelude.{ℕ, List, ◌++◌};
    ghost use Rattle.std.specs.Coded.{coded_list, coded×, coded_ℕ};

    ghost Value = { List (ℕ × ℕ) };

    ghost coded = { coded_list (coded× coded_ℕ coded_ℕ) };

    ghost view = { λ o. o.middle ++ o.early };
}

impl Places {
    /// No hash leads anywhere, and no memory is taken.
    pub fn new(alloc: Global) -> Places
        ensures { result ≡ [] }
    {
        Places {
            late: SharedMap::new(alloc),
            older: Older::new(alloc),
        }
    }

    /// The slot to which the hash leads.
    pub fn get(&self, hash: u64) -> Option<u64>
        ensures { result ≡ at hash self.now }
    {
        if let Some(slot) = self.late.get_spread(&hash) {
            return Some(*slot);
        }
        self.older.get(hash)
    }

    /// A clone, for far less than a copy. No change of one shows in the other.
    pub fn share(&self) -> Result<Places, NoMemory>
        ensures { IfOk result (λ places. places ≡ self.now) }
    {
        Ok(Places {
            late: self.late.share()?,
            older: self.older.share()?,
        })
    }

    /// Leads the hash to the slot.
    pub fn insert(&mut self, hash: u64, slot: u64) -> Result<(), NoMemory>
        ensures found { OnOk result ((other : ℕ) → at other self.new ≡ (if is_eq (nat_cmp other hash) then Some slot else at other self.old)) }
        ensures err { OnErr result (self.new ≡ self.old) }
    {
        self.late.insert(hash, slot)?;
        self.settle();
        Ok(())
    }

    /// Joins the late ones with the others, once they are many. Without memory for it they stay.
    fn settle(&mut self)
        ensures { (hash : ℕ) → at hash self.new ≡ at hash self.old }
    {
        if self.late.len() < MAX_LATE {
            return;
        }
        let Ok(()) = self.older.take_in(&self.late) else {
            return;
        };
        self.late = SharedMap::new(self.late.alloc());
    }
}

impl Older {
    fn new(alloc: Global) -> Older
        ensures { result ≡ [] }
    {
        Older {
            middle: Long::new(alloc),
            early: Long::new(alloc),
        }
    }

    fn get(&self, hash: u64) -> Option<u64>
        ensures { result ≡ at hash self.now }
    {
        if let Some(slot) = self.middle.get(hash) {
            return Some(slot);
        }
        self.early.get(hash)
    }

    fn share(&self) -> Result<Older, NoMemory>
        ensures { IfOk result (λ older. older ≡ self.now) }
    {
        Ok(Older {
            middle: self.middle.share()?,
            early: self.early.share()?,
        })
    }

    /// Takes in what came lately, which counts before what is here.
    fn take_in(&mut self, late: &SharedMap<u64, u64>) -> Result<(), NoMemory>
        ensures found { OnOk result ((hash : ℕ) → at hash self.new ≡ at hash (late.now ++ self.old)) }
        ensures err { OnErr result (self.new ≡ self.old) }
    {
        self.middle = self.middle.with(late)?;
        self.settle();
        Ok(())
    }

    /// Joins the middle with the early ones, once it is long. Without memory for it both stay.
    fn settle(&mut self)
        ensures { (hash : ℕ) → at hash self.new ≡ at hash self.old }
    {
        let max = (self.early.len() / EARLY_PER_MIDDLE).max(MIN_MIDDLE);
        if self.middle.len() < max {
            return;
        }
        let Ok(merged) = self.middle.before(&self.early) else {
            return;
        };
        self.middle = Long::new(self.early.alloc());
        self.early = merged;
    }
}
