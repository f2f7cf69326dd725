//! A part of an ordered map: pairs in order, in runs. A `shared_part` holds one, and a `shared_map` is made of such parts.

ghost use Rattle.std.specs.Prelude.{◌≡◌, ◌-◌, ◌<◌, length, slice_get, slice_index_or, IfOk, OnOk, OnErr, Some};
ghost use Rattle.std.specs.BTreeMap.{insert_entry, is_at};
ghost use Rattle.std.specs.BTreeMap.Range.{entries_from};
ghost use Rattle.std.specs.List.Sorted.{IsStrictlySortedBy};
ghost use Rattle.std.specs.Map.{keys_of, lookup, remove_entry};
ghost use Rattle.std.specs.Option.{option_copied};

use crate::Items;
use crate::room::spot_with_room;
use crate::run::{Run, copied};
use crate::runs::{join_run, put_first};
use crate::search::{Halves, Seek, spot_of};
use nm_base::{Copies, NoMemory};
use std::alloc::Global;
use std::marker::Model;

/// Pairs in the order of their keys, each key once. A contract sees it as the list of its pairs.
#[derive(Drop)]
pub struct Part<K: Ord, V> {
    runs: Vec<Run<(K, V)>>,
    len: usize,
}

impl<K: Ord, V> Model for Part<K, V> {
    ghost use Rattle.std.specs.Prelude.{List};
    ghost use Rattle.std.specs.Coded.{coded_list, coded×};
    ghost use Rattle.nm_shared.specs.Runs.{flat};
    ghost use Rattle.nm_shared.specs.Map.{IsMap};

    ghost Value = { List (K × V) };

    ghost coded = { coded_list (coded× K.code V.code) };

    ghost view = { λ m. flat m.runs.items };

    ghost invariant = { λ m. IsMap K.cmp m.runs.items m.len };
}

impl<K: Ord, V> Part<K, V> {
    pub fn len(&self) -> usize
        ensures len { result ≡ length self.now }
        ensures sorted { IsStrictlySortedBy K.cmp (keys_of self.now) }
    {
        self.len
    }

    pub fn alloc(&self) -> Global {
        *self.runs.allocator()
    }

    pub fn get_by<S: Seek<K>>(&self, key: &K, seek: &S) -> Option<&V>
        ensures { option_copied result ≡ lookup (is_at (K.cmp key.now)) self.now }
    {
        let spot = spot_of(self.runs.as_slice(), key, seek);
        if !spot.found {
            return None;
        }
        let entry = &self.runs[spot.run].as_slice()[spot.at];
        Some(&entry.1)
    }

    /// The pair with the least key.
    pub fn first(&self) -> &(K, V)
        requires { 0 < length self.now }
        ensures one { Some result.now ≡ slice_get self.now 0 }
        ensures at { (pair : K × V) → result.now ≡ slice_index_or self.now 0 pair }
    {
        let Some(first) = self.runs.first() else {
            unreachable!()
        };
        &first.as_slice()[0]
    }

    /// The pair with the greatest key.
    pub fn last(&self) -> Option<&(K, V)>
        ensures { option_copied result ≡ slice_get self.now (length self.now - 1) }
    {
        self.runs.last()?.as_slice().last()
    }

    /// All pairs, in order.
    pub fn iter(&self) -> Items<'_, (K, V)>
        ensures { result ≡ self.now }
    {
        Items::of(&[], self.runs.as_slice())
    }

    /// The pairs whose keys are not below `key`, in order.
    pub fn iter_from(&self, key: &K) -> Items<'_, (K, V)>
        ensures rest { result ≡ entries_from (K.cmp key.now) self.now }
        ensures sorted { IsStrictlySortedBy K.cmp (keys_of self.now) }
    {
        let spot = spot_of(self.runs.as_slice(), key, &Halves);
        let Some(run) = self.runs.get(spot.run) else {
            return self.iter();
        };
        Items::of(
            &run.as_slice()[spot.at..],
            &self.runs.as_slice()[spot.run + 1..],
        )
    }
}

impl<K: Ord + Drop, V: Drop> Part<K, V> {
    /// The map of these pairs, all in one run.
    pub fn of_sorted(pairs: Vec<(K, V)>) -> Result<Part<K, V>, NoMemory>
        requires { IsStrictlySortedBy K.cmp (keys_of pairs.items) }
        ensures { IfOk result (λ map. map ≡ pairs.items) }
    {
        let alloc = *pairs.allocator();
        let len = pairs.len();
        let mut runs = Vec::new(alloc);
        if len == 0 {
            return Ok(Part { runs, len });
        }
        runs.push(Run::of(pairs)?)?;
        Ok(Part { runs, len })
    }

    /// A clone, for far less than a copy. No change of one shows in the other.
    pub fn share(&self) -> Result<Part<K, V>, NoMemory>
        ensures { IfOk result (λ map. map ≡ self.now) }
    {
        Ok(Part {
            runs: copied(*self.runs.allocator(), self.runs.as_slice())?,
            len: self.len,
        })
    }
}

impl<K: Ord + Copies, V: Copies> Part<K, V> {
    pub fn remove(&mut self, key: &K) -> Result<(), NoMemory>
        ensures ok { OnOk result (self.new ≡ remove_entry (is_at (K.cmp key.now)) self.old) }
        ensures err { OnErr result (self.new ≡ self.old) }
    {
        let run = self.take_out(key)?;
        self.join_beside(run);
        Ok(())
    }

    /// Puts `value` beside `key`. A key that is there already stays, and takes the value.
    pub fn insert(&mut self, key: K, value: V) -> Result<(), NoMemory>
        ensures ok { OnOk result (self.new ≡ insert_entry K.cmp self.old key value) }
        ensures err { OnErr result (self.new ≡ self.old) }
    {
        if self.len == usize::MAX {
            return Err(NoMemory);
        }
        let spot = spot_with_room(&mut self.runs, &key);
        if spot.found {
            self.runs[spot.run].replace_value(spot.at, value)?;
            return Ok(());
        }
        if self.runs.is_empty() {
            put_first(&mut self.runs, (key, value))?;
            self.len += 1;
            return Ok(());
        }
        self.runs[spot.run].insert(spot.at, (key, value))?;
        self.len += 1;
        Ok(())
    }

    /// The same, and answers at which run the pair was, or would be.
    fn take_out(&mut self, key: &K) -> Result<usize, NoMemory>
        ensures ok { OnOk result (self.new ≡ remove_entry (is_at (K.cmp key.now)) self.old) }
        ensures err { OnErr result (self.new ≡ self.old) }
        ensures sorted { IsStrictlySortedBy K.cmp (keys_of self.old) }
    {
        let spot = spot_of(self.runs.as_slice(), key, &Halves);
        if !spot.found {
            return Ok(spot.run);
        }
        let len = self.len.saturating_sub(1);
        if self.runs[spot.run].len() == 1 {
            self.runs.remove(spot.run);
            self.len = len;
            return Ok(spot.run);
        }
        self.runs[spot.run].remove(spot.at)?;
        self.len = len;
        Ok(spot.run)
    }

    /// Joins small runs beside this one. Without memory for it they stay.
    fn join_beside(&mut self, run: usize)
        ensures { self.new ≡ self.old }
    {
        let _ = join_run(&mut self.runs, run);
        let _ = join_run(&mut self.runs, run.saturating_sub(1));
    }
}
