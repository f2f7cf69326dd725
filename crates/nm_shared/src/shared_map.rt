//! An ordered map that snapshots share: `hashed_map` rests on it, and `nm_threads` and `nm_state` keep threads and
//! messages in it. Its pairs are in parts, so that a clone counts a few, and a change copies little.

ghost use Rattle.std.specs.Prelude.{◌≡◌, ◌==◌, ◌-◌, ◌<◌, [], false, true, length, slice_get, IfOk, OnOk, OnErr, Some, None, if◌then◌else◌};
ghost use Rattle.std.specs.BTreeMap.{insert_entry, is_at};
ghost use Rattle.std.specs.BTreeMap.Range.{entries_from};
ghost use Rattle.std.specs.List.Sorted.{IsStrictlySortedBy};
ghost use Rattle.std.specs.Map.{keys_of, lookup, remove_entry};
ghost use Rattle.std.specs.Option.{option_copied};
ghost use Rattle.std.specs.Ordering.{is_eq, nat_cmp};
ghost use Rattle.nm_shared.specs.Runs.{HaveItems};
ghost use Rattle.nm_shared.specs.Search.{IsRunOf};
ghost use Rattle.nm_shared.specs.Spot.{AllBelow};

use crate::part::Part;
use crate::run::copied;
use crate::search::{AtEnd, Guesses, Halves, Probe, Seek};
use crate::shared_part::SharedPart;
use crate::{InOrder, Items};
use nm_base::{Copies, NoMemory};
use std::alloc::Global;
use std::cmp::Ordering;
use std::marker::Model;

/// A last part with this many pairs is full: a key above all others begins the next one.
const MAX_PART: usize = 1 << PART_BITS;

const PART_BITS: u32 = 13;

/// Pairs in the order of their keys, each key once. A contract sees it as the list of its pairs.
#[derive(Drop)]
pub struct SharedMap<K: Ord, V> {
    parts: Vec<SharedPart<K, V>>,
    len: usize,
}

impl<K: Ord, V> Model for SharedMap<K, V> {
    ghost use Rattle.std.specs.Prelude.{List};
    ghost use Rattle.std.specs.Coded.{coded_list, coded×};
    ghost use Rattle.nm_shared.specs.Runs.{flat};
    ghost use Rattle.nm_shared.specs.Map.{IsMap};

    ghost Value = { List (K × V) };

    ghost coded = { coded_list (coded× K.code V.code) };

    ghost view = { λ m. flat m.parts.items };

    ghost invariant = { λ m. IsMap K.cmp m.parts.items m.len };
}

/// How many parts begin with a key that is not above `key`.
fn part_of<K: Ord, V, S: Seek<K>>(parts: &[SharedPart<K, V>], key: &K, seek: &S) -> usize
    requires { HaveItems parts.now }
    ensures { IsRunOf K.cmp key.now parts.now result }
{
    let Some(first) = parts.first() else {
        return 0;
    };
    let mut probe = Probe {
        at: seek.guess(&first.get().first().0, key, parts.len(), PART_BITS),
        is_guess: true,
    };
    let mut low = 0;
    let mut high = parts.len();
    'parts: while low < high {
        let at = probe.at.max(low).min(high - 1);
        let is_above = key.cmp(&parts[at].get().first().0) == Ordering::Less;
        if is_above {
            high = at;
        } else {
            low = at + 1;
        }
        probe = probe.next(low, high, is_above);
    }
    low
}

impl<K: Ord, V> SharedMap<K, V> {
    /// An empty map, which takes no memory.
    pub fn new(alloc: Global) -> SharedMap<K, V>
        ensures { result ≡ [] }
    {
        SharedMap {
            parts: Vec::new(alloc),
            len: 0,
        }
    }

    pub fn len(&self) -> usize
        ensures len { result ≡ length self.now }
        ensures sorted { IsStrictlySortedBy K.cmp (keys_of self.now) }
    {
        self.len
    }

    pub fn is_empty(&self) -> bool
        ensures { result ≡ (length self.now == 0) }
    {
        self.len == 0
    }

    pub(crate) fn alloc(&self) -> Global {
        *self.parts.allocator()
    }

    pub fn get(&self, key: &K) -> Option<&V>
        ensures { option_copied result ≡ lookup (is_at (K.cmp key.now)) self.now }
    {
        self.get_by(key, &Halves)
    }

    pub(crate) fn get_by<S: Seek<K>>(&self, key: &K, seek: &S) -> Option<&V>
        ensures { option_copied result ≡ lookup (is_at (K.cmp key.now)) self.now }
    {
        let at = part_of(self.parts.as_slice(), key, seek).saturating_sub(1);
        let Some(part) = self.parts.get(at) else {
            return None;
        };
        part.get().get_by(key, seek)
    }

    /// The pair with the least key.
    pub fn first(&self) -> Option<&(K, V)>
        ensures { option_copied result ≡ slice_get self.now 0 }
    {
        let Some(part) = self.parts.first() else {
            return None;
        };
        Some(part.get().first())
    }

    /// The pair with the greatest key.
    pub fn last(&self) -> Option<&(K, V)>
        ensures { option_copied result ≡ slice_get self.now (length self.now - 1) }
    {
        let Some(part) = self.parts.last() else {
            return None;
        };
        part.get().last()
    }

    /// All pairs, in order.
    pub fn iter(&self) -> InOrder<'_, K, V>
        ensures { result ≡ self.now }
    {
        InOrder::of(Items::of(&[], &[]), self.parts.as_slice())
    }

    /// The pairs whose keys are not below `key`, in order.
    pub fn iter_from(&self, key: &K) -> InOrder<'_, K, V>
        ensures rest { result ≡ entries_from (K.cmp key.now) self.now }
        ensures sorted { IsStrictlySortedBy K.cmp (keys_of self.now) }
    {
        let at = part_of(self.parts.as_slice(), key, &Halves).saturating_sub(1);
        let Some(part) = self.parts.get(at) else {
            return self.iter();
        };
        InOrder::of(part.get().iter_from(key), &self.parts.as_slice()[at + 1..])
    }
}

impl<V> SharedMap<u64, V> {
    /// The same as `get`, for less work where the keys are spread evenly over all numbers, as hashes are.
    pub(crate) fn get_spread(&self, key: &u64) -> Option<&V>
        ensures { option_copied result ≡ lookup (is_at (nat_cmp key.now)) self.now }
    {
        let keys = self.len as u64;
        self.get_by(key, &Guesses { keys })
    }

    /// The same as `get`, for less work where most keys follow one another.
    pub fn get_numbered(&self, key: &u64) -> Option<&V>
        ensures { option_copied result ≡ lookup (is_at (nat_cmp key.now)) self.now }
    {
        self.get_by(key, &Guesses { keys: u64::MAX })
    }
}

impl<K: Ord + Drop, V: Drop> SharedMap<K, V> {
    /// The map of these pairs, all in one run.
    pub(crate) fn of_sorted(pairs: Vec<(K, V)>) -> Result<SharedMap<K, V>, NoMemory>
        requires { IsStrictlySortedBy K.cmp (keys_of pairs.items) }
        ensures { IfOk result (λ map. map ≡ pairs.items) }
    {
        let alloc = *pairs.allocator();
        let len = pairs.len();
        let mut parts = Vec::new(alloc);
        if len == 0 {
            return Ok(SharedMap { parts, len });
        }
        parts.push(SharedPart::new(Part::of_sorted(pairs)?)?)?;
        Ok(SharedMap { parts, len })
    }

    /// A clone, for far less than a copy. No change of one shows in the other.
    pub fn share(&self) -> Result<SharedMap<K, V>, NoMemory>
        ensures { IfOk result (λ map. map ≡ self.now) }
    {
        Ok(SharedMap {
            parts: copied(self.alloc(), self.parts.as_slice())?,
            len: self.len,
        })
    }
}

impl<K: Ord + Copies, V: Copies> SharedMap<K, V> {
    /// Puts `value` beside `key`. A key that is there already stays, and takes the value.
    pub fn insert(&mut self, key: K, value: V) -> Result<(), NoMemory>
        ensures ok { OnOk result (self.new ≡ insert_entry K.cmp self.old key value) }
        ensures found { OnOk result ((other : K) → lookup (is_at (K.cmp other)) self.new ≡ (if is_eq (K.cmp other key) then Some value else lookup (is_at (K.cmp other)) self.old)) }
        ensures err { OnErr result (self.new ≡ self.old) }
    {
        if self.begins_part(&key) {
            self.push_part(key, value)?;
            return Ok(());
        }
        self.put(key, value)?;
        Ok(())
    }

    pub fn remove(&mut self, key: &K) -> Result<(), NoMemory>
        ensures ok { OnOk result (self.new ≡ remove_entry (is_at (K.cmp key.now)) self.old) }
        ensures found { OnOk result ((other : K) → lookup (is_at (K.cmp other)) self.new ≡ (if is_eq (K.cmp other key.now) then None else lookup (is_at (K.cmp other)) self.old)) }
        ensures err { OnErr result (self.new ≡ self.old) }
    {
        self.take_out(key)?;
        Ok(())
    }

    /// Says whether a key above all others goes into a part of its own: there is none, or the last one is full.
    fn begins_part(&self, key: &K) -> bool
        ensures above { result ≡ true → AllBelow K.cmp key.now self.now }
        ensures some { result ≡ false → 0 < length self.now }
    {
        // No code needs the number; that the last pair is above the others comes with it.
        if self.len() == 0 {
            return true;
        }
        let Some(pair) = self.last() else {
            return false;
        };
        match key.cmp(&pair.0) {
            Ordering::Greater => self.is_full(),
            _ => false,
        }
    }

    fn is_full(&self) -> bool {
        match self.parts.last() {
            None => false,
            Some(part) => part.get().len() >= MAX_PART,
        }
    }

    /// Puts a pair with a key above all others after them, in a part of its own.
    fn push_part(&mut self, key: K, value: V) -> Result<(), NoMemory>
        requires { AllBelow K.cmp key self.old }
        ensures ok { OnOk result (self.new ≡ insert_entry K.cmp self.old key value) }
        ensures err { OnErr result (self.new ≡ self.old) }
    {
        if self.len == usize::MAX {
            return Err(NoMemory);
        }
        let mut pairs = Vec::new(self.alloc());
        pairs.push((key, value))?;
        self.parts.push(SharedPart::new(Part::of_sorted(pairs)?)?)?;
        self.len += 1;
        Ok(())
    }

    /// Puts a pair into the part that its key belongs to.
    fn put(&mut self, key: K, value: V) -> Result<(), NoMemory>
        requires { 0 < length self.old }
        ensures ok { OnOk result (self.new ≡ insert_entry K.cmp self.old key value) }
        ensures err { OnErr result (self.new ≡ self.old) }
    {
        if self.len == usize::MAX {
            return Err(NoMemory);
        }
        let at = part_of(self.parts.as_slice(), &key, &AtEnd).saturating_sub(1);
        let part = &mut self.parts[at];
        let before = part.get().len();
        part.insert(key, value)?;
        let more = part.get().len().saturating_sub(before);
        self.len = self.len.saturating_add(more);
        Ok(())
    }

    fn take_out(&mut self, key: &K) -> Result<(), NoMemory>
        ensures ok { OnOk result (self.new ≡ remove_entry (is_at (K.cmp key.now)) self.old) }
        ensures err { OnErr result (self.new ≡ self.old) }
        ensures sorted { IsStrictlySortedBy K.cmp (keys_of self.old) }
    {
        let at = part_of(self.parts.as_slice(), key, &Halves).saturating_sub(1);
        if at >= self.parts.len() {
            return Ok(());
        }
        let part = &mut self.parts[at];
        let before = part.get().len();
        part.remove(key)?;
        let after = part.get().len();
        self.len = self.len.saturating_sub(before.saturating_sub(after));
        if after == 0 {
            self.parts.remove(at);
        }
        Ok(())
    }
}
