//! The labels of a mail store's ids: each id's number and the name of its thread. A table of `nm_tables` holds them.

ghost use Rattle.std.specs.Prelude.{◌≡◌, ◌≤◌, ◌+◌, ◌^◌, ◌∷◌, ◌++◌, [], ℕ, List, false, length, map, not, IfOk, OnOk, OnErr, MatchOption, Contains};
ghost use Rattle.std.specs.List.{IsDistinct, filter, flat_map};
ghost use Rattle.nm_base.specs.Order.{same_text};
ghost use Rattle.nm_base.specs.declared.facts.LinkRow.{LinkRow};
ghost use Rattle.nm_threads.specs.Entries.{AreEntriesOf};
ghost use Rattle.nm_threads.specs.Labels.{AreLabelsOf, IsLabelling, entries_of, has_entry, named, numbered, thread_len};
ghost use Rattle.nm_threads.specs.Maps.{AreMaps, labelling_of};
ghost use Rattle.nm_threads.specs.Name.{thread_name};
ghost use Rattle.nm_threads.specs.Same.{ids_of, is_held, is_same};
ghost use Rattle.nm_threads.specs.Work.{Doubles, potential, row_steps, rows_steps};

use crate::dead::remove_dead;
use crate::entries::Entries;
use crate::maps::Maps;
use crate::members::members_named;
use crate::rebuild::{add_uncounted, give_numbers};
use crate::removal::remove_named;
use crate::rows::{add, add_all};
use crate::thread_merge::{place_by_hint, place_of};
use nm_base::{Copies, LinkRow, Many, MessageId, NoMemory, Steps};
use std::alloc::Global;
use std::marker::{Brand, Model};
use std::mem;
use std::sync::ledger::{Blank, Ledger};

/// Labels of ids. A contract sees each id with its number and the name of its thread, and the number that comes next.
#[derive(Drop)]
pub struct Labels {
    alloc: Global,
    maps: Maps,
}

impl Model for Labels {
    ghost use Rattle.nm_threads.specs.Labels.{Labelling};
    ghost use Rattle.nm_threads.specs.Maps.{AreMaps, labelling_of};

    ghost Value = { Labelling };

    ghost view = { λ l. labelling_of l.maps };

    ghost invariant = { λ l. AreMaps l.maps };
}

impl Labels {
    /// No labels; the first number is 1. It takes no memory.
    pub fn new(alloc: Global) -> Labels
        ensures labels { result.labels ≡ [] }
        ensures next { result.next ≡ 1 }
    {
        Labels {
            alloc,
            maps: Maps::new(alloc),
        }
    }

    /// The labels of these rows, where ids have these numbers.
    pub fn of(
        alloc: Global,
        rows: &Many<LinkRow>,
        entries: &Many<(MessageId, u64)>,
        next: u64,
    ) -> Result<Labels, NoMemory>
        requires { AreEntriesOf rows.now entries.now next }
        ensures entries { IfOk result (λ labels. entries_of labels.labels ≡ entries.now) }
        ensures next { IfOk result (λ labels. labels.next ≡ next) }
        ensures labels { IfOk result (λ labels. AreLabelsOf rows.now labels.labels) }
    {
        let mut maps = Maps::new(alloc);
        give_numbers(&mut maps, entries.as_slice(), next)?;
        add_uncounted::<Brand>(alloc, &mut maps, rows.as_slice(), Blank::new(1))?;
        Ok(Labels { alloc, maps })
    }

    /// The number that the next id gets.
    pub fn next(&self) -> u64
        ensures next { result ≡ self.now.next }
        ensures least { 1 ≤ result }
        ensures most { result ≤ 2 ^ 63 }
        ensures labelling { IsLabelling self.now }
    {
        self.maps.next
    }

    /// The number of an id, if it has one.
    pub fn number_of(&self, id: &MessageId) -> Option<u64>
        ensures { MatchOption result (has_entry (entries_of self.now.labels) id.now ≡ false) (λ number. Contains (entries_of self.now.labels) (id.now, number)) }
    {
        Some(*self.maps.numbers.get(id)?)
    }

    /// The name of the thread of an id that has a number: the least number of the thread's ids.
    pub fn name_of(&self, id: &MessageId) -> Option<u64>
        ensures label { MatchOption result (has_entry (entries_of self.now.labels) id.now ≡ false) (λ name. (number : ℕ) × Contains self.now.labels (record { id = id.now; number = number; name = name })) }
        ensures thread { (rows : List LinkRow) → AreLabelsOf rows self.now.labels → result ≡ thread_name rows (entries_of self.now.labels) id.now }
    {
        let place = place_of(&self.maps, id)?;
        Some(place.thread.name)
    }

    /// Where the name of the next id is looked for first, and that of this one, for less work where ids are asked for in the
    /// order of their numbers; wherever a search begins, it finds the same.
    pub fn name_by_hint(&self, id: &MessageId, slot_hint: u64) -> (u64, Option<u64>)
        ensures { (rows : List LinkRow) → AreLabelsOf rows self.now.labels → result.1 ≡ thread_name rows (entries_of self.now.labels) id.now }
    {
        match place_by_hint(&self.maps, id, slot_hint) {
            Some((next, place)) => (next, Some(place.thread.name)),
            None => (slot_hint, None),
        }
    }

    /// All ids that have numbers, by rising numbers.
    pub fn entries(&self) -> Entries<'_>
        ensures { result ≡ entries_of self.now.labels }
    {
        Entries::of(&self.maps.ids)
    }

    /// The ids of the thread of this name, by their numbers; none where no thread has it.
    pub fn members<L: Ledger>(
        &self,
        name: u64,
        steps: &mut Steps<L>,
    ) -> Result<Many<MessageId>, NoMemory>
        ensures ids { IfOk result (λ ids. ids ≡ map (λ label. label.id) (named name self.now.labels)) }
        ensures once { IfOk result (λ ids. IsDistinct same_text ids) }
        ensures steps { OnOk result (steps.new ≡ steps.old + length (named name self.now.labels)) }
    {
        let ids = members_named(self.alloc, &self.maps, name, steps)?;
        Ok(ids)
    }

    /// The ids of the thread of an id, by their numbers; none where the id has no number.
    pub fn thread_of<L: Ledger>(
        &self,
        id: &MessageId,
        steps: &mut Steps<L>,
    ) -> Result<Many<MessageId>, NoMemory>
        ensures ids { IfOk result (λ ids. (rows : List LinkRow) → AreLabelsOf rows self.now.labels → ids ≡ map (λ entry. entry.0) (filter (λ entry. is_same rows id.now entry.0) (entries_of self.now.labels))) }
        ensures once { IfOk result (λ ids. IsDistinct same_text ids) }
    {
        let Some(name) = self.name_of(id) else {
            return Ok(Many::new(self.alloc));
        };
        let ids = self.members(name, steps)?;
        Ok(ids)
    }

    /// Adds the row of a mail: ids without a number get the next ones, the mail's own first, and all are of one thread.
    pub fn add_row<L: Ledger>(
        &mut self,
        row: &LinkRow,
        steps: &mut Steps<L>,
    ) -> Result<(), NoMemory>
        requires { (numbered (entries_of self.old.labels) self.old.next (ids_of row.now)).1 ≤ 2 ^ 63 }
        ensures numbers { OnOk result ((entries_of self.new.labels, self.new.next) ≡ numbered (entries_of self.old.labels) self.old.next (ids_of row.now)) }
        ensures labels { OnOk result ((rows : List LinkRow) → AreLabelsOf rows self.old.labels → AreLabelsOf (row.now ∷ rows) self.new.labels) }
        ensures steps { OnOk result (steps.new ≤ steps.old + length (ids_of row.now) + thread_len row.now.id self.new.labels) }
        ensures looked { OnOk result (steps.old + length (ids_of row.now) ≤ steps.new) }
        ensures exact { OnOk result ((rows : List LinkRow) → AreLabelsOf rows self.old.labels → steps.new ≡ steps.old + row_steps rows (entries_of self.old.labels, self.old.next) row.now) }
        ensures work { OnOk result ((f : ℕ → ℕ) → Doubles f → steps.new + potential f self.old.labels ≤ steps.old + length (ids_of row.now) + potential f self.new.labels) }
        ensures err { OnErr result (self.new ≡ self.old) }
    {
        let mut maps = self.maps.share(self.alloc)?;
        add(self.alloc, &mut maps, row, steps)?;
        self.maps = maps;
        Ok(())
    }

    /// The same without a clone of what was there, for far less work at many rows one by one. Where there was no memory
    /// all labels are lost.
    pub fn add_row_in_place<L: Ledger>(
        &mut self,
        row: &LinkRow,
        steps: &mut Steps<L>,
    ) -> Result<(), NoMemory>
        requires { (numbered (entries_of self.old.labels) self.old.next (ids_of row.now)).1 ≤ 2 ^ 63 }
        ensures numbers { OnOk result ((entries_of self.new.labels, self.new.next) ≡ numbered (entries_of self.old.labels) self.old.next (ids_of row.now)) }
        ensures labels { OnOk result ((rows : List LinkRow) → AreLabelsOf rows self.old.labels → AreLabelsOf (row.now ∷ rows) self.new.labels) }
        ensures steps { OnOk result (steps.new ≤ steps.old + length (ids_of row.now) + thread_len row.now.id self.new.labels) }
        ensures looked { OnOk result (steps.old + length (ids_of row.now) ≤ steps.new) }
        ensures exact { OnOk result ((rows : List LinkRow) → AreLabelsOf rows self.old.labels → steps.new ≡ steps.old + row_steps rows (entries_of self.old.labels, self.old.next) row.now) }
        ensures err { OnErr result (self.new.labels ≡ []) }
    {
        let mut maps = mem::replace(&mut self.maps, Maps::new(self.alloc));
        add(self.alloc, &mut maps, row, steps)?;
        self.maps = maps;
        Ok(())
    }

    /// Adds the rows of mails, in order, all or none; for many rows this costs far less than one by one.
    pub fn add_rows<L: Ledger>(
        &mut self,
        rows: &[LinkRow],
        steps: &mut Steps<L>,
    ) -> Result<(), NoMemory>
        requires { (numbered (entries_of self.old.labels) self.old.next (flat_map ids_of rows.now)).1 ≤ 2 ^ 63 }
        ensures numbers { OnOk result ((entries_of self.new.labels, self.new.next) ≡ numbered (entries_of self.old.labels) self.old.next (flat_map ids_of rows.now)) }
        ensures labels { OnOk result ((others : List LinkRow) → AreLabelsOf others self.old.labels → AreLabelsOf (rows.now ++ others) self.new.labels) }
        ensures looked { OnOk result (steps.old + length (flat_map ids_of rows.now) ≤ steps.new) }
        ensures exact { OnOk result ((others : List LinkRow) → AreLabelsOf others self.old.labels → steps.new ≡ steps.old + rows_steps others (entries_of self.old.labels, self.old.next) [] rows.now) }
        ensures work { OnOk result ((f : ℕ → ℕ) → Doubles f → steps.new + potential f self.old.labels ≤ steps.old + length (flat_map ids_of rows.now) + potential f self.new.labels) }
        ensures err { OnErr result (self.new ≡ self.old) }
    {
        let mut maps = self.maps.share(self.alloc)?;
        add_all(self.alloc, &mut maps, rows, steps)?;
        self.maps = maps;
        Ok(())
    }

    /// Lets go the thread of an id: all its ids lose their numbers, and no other does. The next number stays.
    pub fn drop_thread(&mut self, id: &MessageId) -> Result<(), NoMemory>
        ensures next { OnOk result (self.new.next ≡ self.old.next) }
        ensures entries { OnOk result ((rows : List LinkRow) → AreLabelsOf rows self.old.labels → entries_of self.new.labels ≡ filter (λ entry. not (is_same rows id.now entry.0)) (entries_of self.old.labels)) }
        ensures labels { OnOk result ((rows : List LinkRow) → AreLabelsOf rows self.old.labels → AreLabelsOf (filter (λ row. not (is_same rows id.now row.id)) rows) self.new.labels) }
        ensures err { OnErr result (self.new ≡ self.old) }
    {
        let Some(name) = self.name_of(id) else {
            return Ok(());
        };
        let mut maps = self.maps.share(self.alloc)?;
        remove_named(self.alloc, &mut maps, name)?;
        self.maps = maps;
        Ok(())
    }

    /// The same without a clone of what was there, for far less work at many threads one by one. Where there was no memory
    /// all labels are lost.
    pub fn drop_thread_in_place(&mut self, id: &MessageId) -> Result<(), NoMemory>
        ensures next { OnOk result (self.new.next ≡ self.old.next) }
        ensures entries { OnOk result ((rows : List LinkRow) → AreLabelsOf rows self.old.labels → entries_of self.new.labels ≡ filter (λ entry. not (is_same rows id.now entry.0)) (entries_of self.old.labels)) }
        ensures labels { OnOk result ((rows : List LinkRow) → AreLabelsOf rows self.old.labels → AreLabelsOf (filter (λ row. not (is_same rows id.now row.id)) rows) self.new.labels) }
        ensures err { OnErr result (self.new.labels ≡ []) }
    {
        let Some(name) = self.name_of(id) else {
            return Ok(());
        };
        let mut rest = mem::replace(&mut self.maps, Maps::new(self.alloc));
        remove_named(self.alloc, &mut rest, name)?;
        self.maps = rest;
        Ok(())
    }

    /// Lets go the threads without a live id: their ids lose their numbers, and no others do. The next number stays.
    pub fn drop_dead(&mut self, live: &Many<MessageId>) -> Result<(), NoMemory>
        ensures next { OnOk result (self.new.next ≡ self.old.next) }
        ensures entries { OnOk result ((rows : List LinkRow) → AreLabelsOf rows self.old.labels → entries_of self.new.labels ≡ filter (λ entry. is_held rows live.now entry.0) (entries_of self.old.labels)) }
        ensures labels { OnOk result ((rows : List LinkRow) → AreLabelsOf rows self.old.labels → AreLabelsOf (filter (λ row. is_held rows live.now row.id) rows) self.new.labels) }
        ensures err { OnErr result (self.new ≡ self.old) }
    {
        let mut maps = self.maps.share(self.alloc)?;
        remove_dead(self.alloc, &mut maps, live.as_slice())?;
        self.maps = maps;
        Ok(())
    }
}

/// The copy is a clone.
impl Copies for Labels {
    fn copy(&self) -> Result<Labels, NoMemory> {
        Ok(Labels {
            alloc: self.alloc,
            maps: self.maps.share(self.alloc)?,
        })
    }
}
