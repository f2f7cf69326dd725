//! A map that snapshots share, in which keys are found by their hashes: `nm_threads` and `nm_state` look up ids in such maps.

ghost use Rattle.std.specs.Prelude.{◌≡◌, ◌≢◌, ◌++◌, [], ℕ, true, false, IfOk, MatchOption, MatchResult, OnOk, OnErr, Some, None, if◌then◌else◌};
ghost use Rattle.std.specs.BTreeMap.{is_at};
ghost use Rattle.std.specs.List.{IsDistinct};
ghost use Rattle.std.specs.Map.{keys_of, lookup, values_of};
ghost use Rattle.std.specs.Option.{option_and_then, option_copied};
ghost use Rattle.std.specs.Ordering.{eq_by_cmp, is_eq};
ghost use Rattle.nm_shared.specs.Hashed.{at, slot_value, IsHashed};

use crate::SharedMap;
use crate::pairs::Pairs;
use crate::places::Places;
use nm_base::{Copies, NoMemory};
use std::alloc::Global;
use std::cmp::Ordering;
use std::marker::Model;

/// A key with a hash: a number that depends on the key alone, and that few keys should have in common.
pub trait Hashed: Ord {
    ghost hash: { Self → ℕ };

    fn hash_code(&self) -> u64
        ensures { result ≡ hash self.now };

    ghost same: { (a b : Self) → is_eq (Self.cmp a b) ≡ true → a ≡ b };
}

/// Pairs, each key once, in no particular order. A contract sees it as a list of its pairs.
#[derive(Drop)]
pub struct HashedMap<K: Hashed, V> {
    /// The slot to which a hash leads. A place stays when its pair is removed, until another one takes it.
    places: Places,
    /// Pairs by slots, in the order in which they came.
    slots: SharedMap<u64, (K, V)>,
    /// Pairs whose hash leads to the slot of another key, so that many keys with one hash cost no more than keys in order.
    crowded: SharedMap<K, V>,
    next: u64,
}

impl<K: Hashed, V> Model for HashedMap<K, V> {
    ghost use Rattle.std.specs.Prelude.{List, ◌++◌};
    ghost use Rattle.std.specs.Coded.{coded_list, coded×};
    ghost use Rattle.std.specs.Map.{values_of};
    ghost use Rattle.nm_shared.specs.Hashed.{IsHashed};

    ghost Value = { List (K × V) };

    ghost coded = { coded_list (coded× K.code V.code) };

    ghost view = { λ m. values_of m.slots ++ m.crowded };

    ghost invariant = { λ m. IsHashed K.cmp K.hash m.places m.slots m.crowded m.next };
}

/// The slot of a key, and the pair in it. Else whether the hash leads to no pair: it may lead to another key's.
fn found<'a, K: Hashed, V>(
    places: &Places,
    slots: &'a SharedMap<u64, (K, V)>,
    key: &K,
    code: u64,
) -> Result<(u64, &'a (K, V)), bool>
    requires { code ≡ K.hash key.now }
    ensures { MatchResult result
        (λ found. (at (K.hash key.now) places.now ≡ Some found.0) × (at found.0 slots.now ≡ Some found.1.now) × (is_eq (K.cmp key.now found.1.now.0) ≡ true))
        (λ is_free. (slot_value K.cmp K.hash places.now slots.now key.now ≡ None) × (is_free ≡ true → option_and_then (λ slot. at slot slots.now) (at (K.hash key.now) places.now) ≡ None)) }
{
    let Some(slot) = places.get(code) else {
        return Err(true);
    };
    let Some(pair) = slots.get_numbered(&slot) else {
        return Err(true);
    };
    if key.cmp(&pair.0) == Ordering::Equal {
        Ok((slot, pair))
    } else {
        Err(false)
    }
}

/// The slot of a key, and the pair in it. The slot `slot_hint` is looked at first.
fn found_by_hint<'a, K: Hashed, V>(
    places: &Places,
    slots: &'a SharedMap<u64, (K, V)>,
    key: &K,
    slot_hint: u64,
) -> Option<(u64, &'a (K, V))>
    ensures { MatchOption result (slot_value K.cmp K.hash places.now slots.now key.now ≡ None) (λ found. (at found.0 slots.now ≡ Some found.1.now) × (is_eq (K.cmp key.now found.1.now.0) ≡ true)) }
{
    if let Some(pair) = slots.get_numbered(&slot_hint) {
        if let Ordering::Equal = key.cmp(&pair.0) {
            return Some((slot_hint, pair));
        }
    }
    match found(places, slots, key, key.hash_code()) {
        Ok(found) => Some(found),
        Err(_) => None,
    }
}

/// Says whether a key without a slot can have none: it is crowded already, or its hash leads to another key.
fn is_crowded<K: Hashed, V>(crowded: &SharedMap<K, V>, key: &K, is_free: bool) -> bool
    ensures free { result ≡ false → is_free ≡ true }
    ensures apart { result ≡ false → lookup (is_at (K.cmp key.now)) crowded.now ≡ None }
{
    !is_free || crowded.get(key).is_some()
}

/// Puts a pair into the next slot, to which its hash leads from then on.
fn add_slot<K: Hashed + Copies, V: Copies>(
    places: &mut Places,
    slots: &mut SharedMap<u64, (K, V)>,
    crowded: &SharedMap<K, V>,
    next: &mut u64,
    code: u64,
    pair: (K, V),
) -> Result<(), NoMemory>
    requires hashed { IsHashed K.cmp K.hash places.old slots.old crowded.now next.old }
    requires code { code ≡ K.hash pair.0 }
    requires free { option_and_then (λ slot. at slot slots.old) (at (K.hash pair.0) places.old) ≡ None }
    requires apart { lookup (is_at (K.cmp pair.0)) crowded.now ≡ None }
    ensures hashed { IsHashed K.cmp K.hash places.new slots.new crowded.now next.new }
    ensures found { OnOk result ((other : K) → lookup (is_at (K.cmp other)) (values_of slots.new ++ crowded.now) ≡ (if is_eq (K.cmp other pair.0) then Some pair.1 else lookup (is_at (K.cmp other)) (values_of slots.old ++ crowded.now))) }
    ensures err { OnErr result (slots.new ≡ slots.old) }
{
    let slot = *next;
    if slot == u64::MAX {
        return Err(NoMemory);
    }
    places.insert(code, slot)?;
    slots.insert(slot, pair)?;
    // No code needs the number; that slots rise comes with it.
    let _ = slots.len();
    *next = slot + 1;
    Ok(())
}

impl<K: Hashed, V> HashedMap<K, V> {
    /// An empty map, which takes no memory.
    pub fn new(alloc: Global) -> HashedMap<K, V>
        ensures { result ≡ [] }
    {
        HashedMap {
            places: Places::new(alloc),
            slots: SharedMap::new(alloc),
            crowded: SharedMap::new(alloc),
            next: 0,
        }
    }

    pub fn get(&self, key: &K) -> Option<&V>
        ensures { option_copied result ≡ lookup (is_at (K.cmp key.now)) self.now }
    {
        let Ok((_, pair)) = found(&self.places, &self.slots, key, key.hash_code()) else {
            return self.crowded.get(key);
        };
        Some(&pair.1)
    }

    /// The same as `get`, for less work where keys are asked for in the order in which they came. Beside the value is
    /// where the next one is looked for first; wherever a search begins, it finds the same.
    pub fn get_by_hint(&self, key: &K, slot_hint: u64) -> Option<(u64, &V)>
        ensures { MatchOption result (lookup (is_at (K.cmp key.now)) self.now ≡ None) (λ found. lookup (is_at (K.cmp key.now)) self.now ≡ Some found.1.now) }
    {
        if let Some((slot, pair)) = found_by_hint(&self.places, &self.slots, key, slot_hint) {
            return Some((slot.saturating_add(1), &pair.1));
        }
        match self.crowded.get(key) {
            Some(value) => Some((slot_hint, value)),
            None => None,
        }
    }

    /// All pairs, in no particular order.
    pub fn iter(&self) -> Pairs<'_, K, V>
        ensures pairs { result ≡ self.now }
        ensures once { IsDistinct (eq_by_cmp K.cmp) (keys_of self.now) }
    {
        // No code needs the number; that the crowded ones are in order comes with it.
        let _ = self.crowded.len();
        Pairs::of(&self.slots, &self.crowded)
    }
}

impl<K: Hashed + Drop, V: Drop> HashedMap<K, V> {
    /// A clone, for far less than a copy. No change of one shows in the other.
    pub fn share(&self) -> Result<HashedMap<K, V>, NoMemory>
        ensures { IfOk result (λ map. map ≡ self.now) }
    {
        Ok(HashedMap {
            places: self.places.share()?,
            slots: self.slots.share()?,
            crowded: self.crowded.share()?,
            next: self.next,
        })
    }
}

impl<K: Hashed + Copies, V: Copies> HashedMap<K, V> {
    /// Puts `value` beside `key`.
    pub fn insert(&mut self, key: K, value: V) -> Result<(), NoMemory>
        ensures found { OnOk result ((other : K) → lookup (is_at (K.cmp other)) self.new ≡ (if is_eq (K.cmp other key) then Some value else lookup (is_at (K.cmp other)) self.old)) }
        ensures err { OnErr result (self.new ≡ self.old) }
    {
        let code = key.hash_code();
        let is_free = match found(&self.places, &self.slots, &key, code) {
            Ok((slot, _)) => {
                self.slots.insert(slot, (key, value))?;
                // No code needs the number; that slots rise comes with it.
                let _ = self.slots.len();
                return Ok(());
            }
            Err(is_free) => is_free,
        };
        if is_crowded(&self.crowded, &key, is_free) {
            self.crowded.insert(key, value)?;
            return Ok(());
        }
        add_slot(
            &mut self.places,
            &mut self.slots,
            &self.crowded,
            &mut self.next,
            code,
            (key, value),
        )?;
        Ok(())
    }

    /// Puts `value` beside `key` where it has none. Else nothing changes, and the answer is a copy of what it has.
    pub fn insert_new(&mut self, key: &K, value: V) -> Result<Option<V>, NoMemory>
        ensures there { IfOk result (λ there. there ≡ lookup (is_at (K.cmp key.now)) self.old) }
        ensures new { IfOk result (λ there. there ≡ None → (other : K) → lookup (is_at (K.cmp other)) self.new ≡ (if is_eq (K.cmp other key.now) then Some value else lookup (is_at (K.cmp other)) self.old)) }
        ensures old { IfOk result (λ there. there ≢ None → self.new ≡ self.old) }
        ensures err { OnErr result (self.new ≡ self.old) }
    {
        let code = key.hash_code();
        let is_free = match found(&self.places, &self.slots, key, code) {
            Ok((_, pair)) => return Ok(Some(pair.1.copy()?)),
            Err(is_free) => is_free,
        };
        if let Some(there) = self.crowded.get(key) {
            return Ok(Some(there.copy()?));
        }
        let key = key.copy()?;
        if !is_free {
            self.crowded.insert(key, value)?;
            return Ok(None);
        }
        add_slot(
            &mut self.places,
            &mut self.slots,
            &self.crowded,
            &mut self.next,
            code,
            (key, value),
        )?;
        Ok(None)
    }

    pub fn remove(&mut self, key: &K) -> Result<(), NoMemory>
        ensures found { OnOk result ((other : K) → lookup (is_at (K.cmp other)) self.new ≡ (if is_eq (K.cmp other key.now) then None else lookup (is_at (K.cmp other)) self.old)) }
        ensures err { OnErr result (self.new ≡ self.old) }
    {
        let Ok((slot, _)) = found(&self.places, &self.slots, key, key.hash_code()) else {
            self.crowded.remove(key)?;
            return Ok(());
        };
        self.slots.remove(&slot)?;
        // No code needs the number; that slots rise comes with it.
        let _ = self.slots.len();
        Ok(())
    }
}
