//! Maps that count what their pairs take in an index as data: the files of a `file_table` and the rows that are `kept` are such.

ghost use Rattle.std.specs.Prelude.{◌≡◌, ◌+◌, ◌≤◌, ℕ, [], None, Some, true, min, if◌then◌else◌, IfOk, OnErr, OnOk};
ghost use Rattle.std.specs.BTreeMap.{insert_entry, is_at};
ghost use Rattle.std.specs.Map.{lookup, remove_entry};
ghost use Rattle.std.specs.Option.{option_copied};
ghost use Rattle.std.specs.Ordering.{is_eq};
ghost use Rattle.nm_base.specs.Limits.{max_count};
ghost use Rattle.nm_tables.specs.Measures.{pairs_len};

use nm_base::{Copies, NoMemory};
use nm_shared::{InOrder, SharedMap};
use std::alloc::Global;
use std::marker::Model;

/// A value that takes n bytes in an index as data.
pub trait Measured {
    ghost measure: { Self → ℕ };

    /// How many, as far as a number can count it.
    fn value_len(&self) -> u64
        ensures { result ≡ min (measure self.now) max_count };
}

/// A key that takes n bytes in an index as data, and as many as those that are the same in its order.
pub trait MeasuredKey: Ord {
    ghost key_measure: { Self → ℕ };

    /// How many, as far as a number can count it.
    fn key_len(&self) -> u64
        ensures { result ≡ min (key_measure self.now) max_count };

    ghost alike: { (a b : Self) → is_eq (Self.cmp a b) ≡ true → key_measure a ≡ key_measure b };
}

/// A map that counts what its pairs take. A contract sees it as the list of its pairs.
#[derive(Drop)]
pub struct MeasuredMap<K: MeasuredKey, V: Measured> {
    map: SharedMap<K, V>,
    bytes: u64,
}

impl<K: MeasuredKey, V: Measured> Model for MeasuredMap<K, V> {
    ghost use Rattle.std.specs.Prelude.{◌≡◌, List};
    ghost use Rattle.std.specs.Coded.{coded_list, coded×};
    ghost use Rattle.nm_tables.specs.Measures.{pairs_len};

    ghost Value = { List (K × V) };

    ghost coded = { coded_list (coded× K.code V.code) };

    ghost view = { λ m. m.map };

    ghost invariant = { λ m. m.bytes ≡ pairs_len K.key_measure V.measure m.map };
}

/// The sum, where a number can hold it.
pub fn sum(bytes: u64, more: u64) -> Result<u64, NoMemory>
    ensures { (exact : ℕ) → more ≡ min exact max_count → IfOk result (λ sum. sum ≡ bytes + exact) }
{
    if more == u64::MAX || bytes > u64::MAX - more {
        return Err(NoMemory);
    }
    Ok(bytes + more)
}

/// The same of a number that is known.
pub fn plus(bytes: u64, more: u64) -> Result<u64, NoMemory>
    ensures { IfOk result (λ sum. sum ≡ bytes + more) }
{
    if bytes > u64::MAX - more {
        return Err(NoMemory);
    }
    Ok(bytes + more)
}

impl<K: MeasuredKey, V: Measured> MeasuredMap<K, V> {
    /// An empty map, which takes no memory.
    pub fn new(alloc: Global) -> MeasuredMap<K, V>
        ensures { result ≡ [] }
    {
        MeasuredMap {
            map: SharedMap::new(alloc),
            bytes: 0,
        }
    }

    /// How many bytes all pairs take.
    pub fn bytes(&self) -> u64
        ensures { result ≡ pairs_len K.key_measure V.measure self.now }
    {
        self.bytes
    }

    /// The pairs without their count.
    pub fn pairs(&self) -> &SharedMap<K, V>
        ensures { result.now ≡ self.now }
    {
        &self.map
    }

    pub fn get(&self, key: &K) -> Option<&V>
        ensures { option_copied result ≡ lookup (is_at (K.cmp key.now)) self.now }
    {
        self.map.get(key)
    }

    /// All pairs, in order.
    pub fn iter(&self) -> InOrder<'_, K, V>
        ensures { result ≡ self.now }
    {
        self.map.iter()
    }

    /// How many bytes the pairs take once `value` is beside `key`.
    fn bytes_with(&self, key: &K, value: &V) -> Result<u64, NoMemory>
        ensures { IfOk result (λ bytes. bytes ≡ pairs_len K.key_measure V.measure (insert_entry K.cmp self.now key.now value.now)) }
    {
        // No code needs the number; that the keys are in order comes with it.
        let _ = self.map.len();
        let bytes = self.bytes();
        match self.map.get(key) {
            Some(old) => {
                let all = sum(bytes.saturating_sub(old.value_len()), value.value_len())?;
                Ok(all)
            }
            None => {
                let with_key = sum(bytes, key.key_len())?;
                let all = sum(with_key, value.value_len())?;
                Ok(all)
            }
        }
    }

    /// How many bytes the pairs take without that of the key.
    fn bytes_without(&self, key: &K) -> u64
        ensures { result ≡ pairs_len K.key_measure V.measure (remove_entry (is_at (K.cmp key.now)) self.now) }
    {
        let bytes = self.bytes();
        match self.map.get(key) {
            Some(old) => bytes
                .saturating_sub(old.value_len())
                .saturating_sub(key.key_len()),
            None => bytes,
        }
    }
}

impl<K: MeasuredKey + Drop, V: Measured + Drop> MeasuredMap<K, V> {
    /// A clone, for far less than a copy. No change of one shows in the other.
    pub fn share(&self) -> Result<MeasuredMap<K, V>, NoMemory>
        ensures { IfOk result (λ map. map ≡ self.now) }
    {
        Ok(MeasuredMap {
            map: self.map.share()?,
            bytes: self.bytes,
        })
    }
}

impl<K: MeasuredKey + Copies, V: Measured + Copies> MeasuredMap<K, V> {
    /// Puts `value` beside `key`. A key that is there already stays, and takes the value.
    pub fn insert(&mut self, key: K, value: V) -> Result<(), NoMemory>
        ensures ok { OnOk result (self.new ≡ insert_entry K.cmp self.old key value) }
        ensures found { OnOk result ((other : K) → lookup (is_at (K.cmp other)) self.new ≡ (if is_eq (K.cmp other key) then Some value else lookup (is_at (K.cmp other)) self.old)) }
        ensures err { OnErr result (self.new ≡ self.old) }
    {
        let bytes = self.bytes_with(&key, &value)?;
        self.map.insert(key, value)?;
        self.bytes = bytes;
        Ok(())
    }

    pub fn remove(&mut self, key: &K) -> Result<(), NoMemory>
        ensures ok { OnOk result (self.new ≡ remove_entry (is_at (K.cmp key.now)) self.old) }
        ensures found { OnOk result ((other : K) → lookup (is_at (K.cmp other)) self.new ≡ (if is_eq (K.cmp other key.now) then None else lookup (is_at (K.cmp other)) self.old)) }
        ensures err { OnErr result (self.new ≡ self.old) }
    {
        let bytes = self.bytes_without(key);
        self.map.remove(key)?;
        self.bytes = bytes;
        Ok(())
    }
}
