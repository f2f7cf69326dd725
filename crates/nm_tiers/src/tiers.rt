//! The tiers of an index, in which `nm_lookup` finds words: rows of `test_segment` settle them.

ghost use Rattle.std.specs.Prelude.{◌≡◌, ◌++◌, ◌∷◌, [], ℕ, Bool, true, length, IfOk, OnErr, OnOk};
ghost use Rattle.std.specs.List.{AllByRecursion};
ghost use Rattle.std.specs.List.Sorted.{IsStrictlySortedBy};
ghost use Rattle.std.specs.Ordering.{nat_cmp};
ghost use Rattle.nm_segment.specs.Docs.{numbers};
ghost use Rattle.nm_tiers.specs.Tiers.{AreSettled, IsCounted, but_for, docs_of, has_doc, living_docs, sizes_of};

use crate::settling::{reversed, settled};
use crate::tier::Tier;
use crate::tier_search::tier_of;
use nm_base::{Copies, Many, NoMemory};
use nm_filter::Condition;
use nm_segment::Segment;
use nm_shared::Shared;
use std::alloc::Global;
use std::marker::Model;

/// Tiers, the oldest first: the numbers of their documents rise.
#[derive(Drop)]
pub struct Tiers {
    list: Vec<Tier>,
}

impl Model for Tiers {
    ghost use Rattle.std.specs.Prelude.{List};
    ghost use Rattle.std.specs.List.Sorted.{IsStrictlySortedBy};
    ghost use Rattle.std.specs.Ordering.{nat_cmp};
    ghost use Rattle.nm_segment.specs.Docs.{numbers};
    ghost use Rattle.nm_tiers.specs.Tiers.{docs_of};
    ghost use Rattle.nm_tiers.specs.declared.tier.Tier.{Tier};

    ghost Value = { List Tier };

    ghost view = { λ t. t.list.items };

    ghost invariant = { λ t. IsStrictlySortedBy nat_cmp (numbers (docs_of t.list.items)) };
}

impl Tiers {
    pub fn new(alloc: Global) -> Tiers
        ensures { result ≡ [] }
    {
        Tiers {
            list: Vec::new(alloc),
        }
    }

    pub fn as_slice(&self) -> &[Tier]
        ensures tiers { result.now ≡ self.now }
        ensures rising { IsStrictlySortedBy nat_cmp (numbers (docs_of self.now)) }
    {
        self.list.as_slice()
    }

    /// Adds a segment after all others; each of its documents lives.
    pub fn push(&mut self, alloc: Global, segment: Segment) -> Result<(), NoMemory>
        requires { IsStrictlySortedBy nat_cmp (numbers (docs_of self.old ++ segment)) }
        ensures ok { OnOk result (self.new ≡ self.old ++ record { segment = segment; live = length segment } ∷ []) }
        ensures err { OnErr result (self.new ≡ self.old) }
    {
        let live = segment.len();
        let segment = Shared::new(alloc, segment)?;
        self.list.push(Tier { segment, live })?;
        Ok(())
    }

    /// A document lives no more: its tier has one less that lives.
    pub fn forget(&mut self, doc: u32)
        requires { has_doc (docs_of self.old) doc ≡ true }
        ensures docs { docs_of self.new ≡ docs_of self.old }
        ensures counted { (lives : ℕ → Bool) → lives doc ≡ true → AllByRecursion (IsCounted lives) self.old → AllByRecursion (IsCounted (but_for lives doc)) self.new }
    {
        let at = tier_of(self.list.as_slice(), doc);
        let live = self.list[at].live.saturating_sub(1);
        self.list[at].live = live;
    }

    /// The tiers without those in which no document lives. Then, from the newest on, a tier that is less than twice as large as the next
    /// newer one is merged with it, and of these two only the documents that live stay. Size is how many documents live.
    pub fn settle<C: Condition>(self, alloc: Global, living: &C) -> Result<Tiers, NoMemory>
        requires { AllByRecursion (IsCounted (C.holds living.now)) self }
        ensures docs { IfOk result (λ tiers. living_docs (C.holds living.now) (docs_of tiers) ≡ living_docs (C.holds living.now) (docs_of self)) }
        ensures counted { IfOk result (λ tiers. AllByRecursion (IsCounted (C.holds living.now)) tiers) }
        ensures settled { IfOk result (λ tiers. AreSettled (sizes_of tiers)) }
    {
        let Tiers { list } = self;
        let newer = settled(alloc, Many::from_vec(list), living)?;
        Ok(Tiers {
            list: reversed(alloc, newer)?.into_vec(),
        })
    }
}

/// The copy shares the segments.
impl Copies for Tiers {
    fn copy(&self) -> Result<Tiers, NoMemory> {
        let mut list = Vec::with_capacity(*self.list.allocator(), self.list.len())?;
        'tiers: for tier in self.list.as_slice() {
            list.push(tier.copy()?)?;
        }
        Ok(Tiers { list })
    }
}
