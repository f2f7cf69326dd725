//! Labels that count what the ids with their numbers take in an index as data: a part of `nm_parts`.

ghost use Rattle.std.specs.Prelude.{◌≡◌, ◌+◌, ◌<◌, ◌≤◌, ◌^◌, ◌∷◌, ◌++◌, ◌||◌, [], List, false, not, map, length, min, ℕ, IfOk, OnErr, OnOk, MatchOption, Contains};
ghost use Rattle.std.specs.List.{filter};
ghost use Rattle.nm_base.specs.Limits.{max_count};
ghost use Rattle.nm_base.specs.Order.{has_text};
ghost use Rattle.nm_base.specs.declared.facts.LinkRow.{LinkRow};
ghost use Rattle.nm_record.specs.BaseBytes.{entry_bytes};
ghost use Rattle.nm_threads.specs.Entries.{AreEntriesOf};
ghost use Rattle.nm_threads.specs.Labels.{AreLabelsOf, IsLabelling, entries_of, has_entry, named, numbered};
ghost use Rattle.nm_threads.specs.Name.{thread_name};
ghost use Rattle.nm_threads.specs.Same.{ids_of, is_same};
ghost use Rattle.nm_tables.specs.Hints.{IsDeadThread};
ghost use Rattle.nm_tables.specs.FileTable.{AreFiled, files_in};
ghost use Rattle.nm_tables.specs.Measures.{AreSeen, entries_len, ids_len};

use crate::file_table::FileTable;
use crate::hints::{Hints, add_hints, add_new_hint, knows_live};
use crate::measured_map::{plus, sum};
use nm_base::{Copies, LinkRow, Many, MessageId, NoMemory, Steps, TextSet};
use nm_record::id_len;
use nm_shared::SharedMap;
use nm_threads::{Entries, Labels};
use std::alloc::Global;
use std::marker::{Brand, Model};
use std::sync::ledger::{Blank, Ledger};

/// Labels that count what their entries take. A contract sees them as the labels.
pub struct MeasuredLabels {
    labels: Labels,
    bytes: u64,
    hints: Hints,
}

impl Model for MeasuredLabels {
    ghost use Rattle.std.specs.Prelude.{◌≡◌};
    ghost use Rattle.nm_threads.specs.Labels.{Labelling, entries_of};
    ghost use Rattle.nm_tables.specs.Measures.{entries_len};

    ghost Value = { Labelling };

    ghost view = { λ l. l.labels };

    ghost invariant = { λ l. l.bytes ≡ entries_len (entries_of l.labels.labels) };
}

impl Drop for MeasuredLabels {
    fn drop(self) {
        let MeasuredLabels {
            labels: _,
            bytes: _,
            hints: _,
        } = self;
    }
}

/// How many bytes an id and its number take.
fn entry_len(id: &MessageId) -> u64
    ensures { result ≡ min (length (entry_bytes (id.now, 0))) max_count }
{
    id_len(id).saturating_add(8)
}

/// How many bytes these ids take with their numbers.
fn ids_len(ids: &[MessageId]) -> Result<u64, NoMemory>
    ensures { IfOk result (λ bytes. bytes ≡ ids_len ids.now) }
{
    let mut bytes = 0u64;
    'ids: for id in ids {
        bytes = sum(bytes, entry_len(id))?;
    }
    Ok(bytes)
}

fn has_number(labels: &Labels, id: &MessageId) -> bool
    ensures { result ≡ has_entry (entries_of labels.now.labels) id.now }
{
    labels.number_of(id).is_some()
}

fn is_known(labels: &Labels, seen: &TextSet<MessageId>, id: &MessageId) -> bool
    ensures { result ≡ (has_entry (entries_of labels.now.labels) id.now || has_text seen.now id.now) }
{
    has_number(labels, id) || seen.contains(id)
}

/// Counts the id where it has no number and was not seen before.
fn count_new(
    labels: &Labels,
    seen: &mut TextSet<MessageId>,
    bytes: u64,
    id: &MessageId,
) -> Result<u64, NoMemory>
    ensures { IfOk result (λ all. (ids : List (List ℕ)) → AreSeen labels.now ids seen.old bytes → AreSeen labels.now (ids ++ id.now ∷ []) seen.new all) }
{
    if is_known(labels, seen, id) {
        return Ok(bytes);
    }
    seen.insert(id.copy()?)?;
    let all = sum(bytes, entry_len(id))?;
    Ok(all)
}

/// How many bytes the ids of a row take that have no number yet.
fn new_len(alloc: Global, labels: &Labels, row: &LinkRow) -> Result<u64, NoMemory>
    ensures { IfOk result (λ bytes. entries_len (numbered (entries_of labels.now.labels) labels.now.next (ids_of row.now)).0 ≡ entries_len (entries_of labels.now.labels) + bytes) }
{
    let mut seen = TextSet::new(alloc);
    let mut bytes = count_new(labels, &mut seen, 0, &row.id)?;
    'links: for id in row.links.as_slice() {
        bytes = count_new(labels, &mut seen, bytes, id)?;
    }
    Ok(bytes)
}

/// Adds a row whose steps nobody counts.
fn add_uncounted<L: Ledger>(
    labels: &mut Labels,
    row: &LinkRow,
    blank: Blank,
) -> Result<(), NoMemory>
    requires name { blank.name ≡ L.name }
    requires parts { blank.parts ≡ L.parts }
    requires whole { 0 < L.parts }
    requires room { (numbered (entries_of labels.old.labels) labels.old.next (ids_of row.now)).1 ≤ 2 ^ 63 }
    ensures numbers { OnOk result ((entries_of labels.new.labels, labels.new.next) ≡ numbered (entries_of labels.old.labels) labels.old.next (ids_of row.now)) }
    ensures labels { OnOk result ((rows : List LinkRow) → AreLabelsOf rows labels.old.labels → AreLabelsOf (row.now ∷ rows) labels.new.labels) }
    ensures err { OnErr result (labels.new.labels ≡ []) }
{
    let mut steps = Steps::<L>::begin(blank);
    labels.add_row_in_place(row, &mut steps)
}

/// The ids of a thread, whose steps nobody counts.
fn thread_uncounted<L: Ledger>(
    labels: &Labels,
    id: &MessageId,
    blank: Blank,
) -> Result<Many<MessageId>, NoMemory>
    requires name { blank.name ≡ L.name }
    requires parts { blank.parts ≡ L.parts }
    requires whole { 0 < L.parts }
    ensures { IfOk result (λ ids. (rows : List LinkRow) → AreLabelsOf rows labels.now.labels → ids ≡ map (λ entry. entry.0) (filter (λ entry. is_same rows id.now entry.0) (entries_of labels.now.labels))) }
{
    let mut steps = Steps::<L>::begin(blank);
    labels.thread_of(id, &mut steps)
}

/// The ids of the thread of a name, whose steps nobody counts.
fn members_uncounted<L: Ledger>(
    labels: &Labels,
    thread: u64,
    blank: Blank,
) -> Result<Many<MessageId>, NoMemory>
    requires name { blank.name ≡ L.name }
    requires parts { blank.parts ≡ L.parts }
    requires whole { 0 < L.parts }
    ensures { IfOk result (λ ids. ids ≡ map (λ label. label.id) (named thread labels.now.labels)) }
{
    let mut steps = Steps::<L>::begin(blank);
    labels.members(thread, &mut steps)
}

/// How many bytes these ids with their numbers take.
fn all_len(entries: &[(MessageId, u64)]) -> Result<u64, NoMemory>
    ensures { IfOk result (λ bytes. bytes ≡ entries_len entries.now) }
{
    let mut bytes = 0u64;
    'entries: for entry in entries {
        bytes = sum(bytes, entry_len(&entry.0))?;
    }
    Ok(bytes)
}

impl MeasuredLabels {
    /// No labels; the first number is 1. It takes no memory.
    pub fn new(alloc: Global) -> MeasuredLabels
        ensures labels { result.labels ≡ [] }
        ensures next { result.next ≡ 1 }
    {
        MeasuredLabels {
            labels: Labels::new(alloc),
            bytes: 0,
            hints: SharedMap::new(alloc),
        }
    }

    /// The labels of these rows, where ids have these numbers.
    pub fn of(
        alloc: Global,
        rows: &Many<LinkRow>,
        entries: &Many<(MessageId, u64)>,
        next: u64,
    ) -> Result<MeasuredLabels, NoMemory>
        requires { AreEntriesOf rows.now entries.now next }
        ensures entries { IfOk result (λ labels. entries_of labels.labels ≡ entries.now) }
        ensures next { IfOk result (λ labels. labels.next ≡ next) }
        ensures labels { IfOk result (λ labels. AreLabelsOf rows.now labels.labels) }
    {
        let bytes = all_len(entries.as_slice())?;
        let labels = Labels::of(alloc, rows, entries, next)?;
        Ok(MeasuredLabels {
            labels,
            bytes,
            hints: SharedMap::new(alloc),
        })
    }

    /// How many bytes all ids with their numbers take.
    pub fn bytes(&self) -> u64
        ensures { result ≡ entries_len (entries_of self.now.labels) }
    {
        self.bytes
    }

    /// The number that the next id gets.
    pub fn next(&self) -> u64
        ensures next { result ≡ self.now.next }
        ensures least { 1 ≤ result }
        ensures most { result ≤ 2 ^ 63 }
        ensures labelling { IsLabelling self.now }
    {
        self.labels.next()
    }

    /// The number of an id, if it has one.
    pub fn number_of(&self, id: &MessageId) -> Option<u64>
        ensures { MatchOption result (has_entry (entries_of self.now.labels) id.now ≡ false) (λ number. Contains (entries_of self.now.labels) (id.now, number)) }
    {
        self.labels.number_of(id)
    }

    /// The name of the thread of an id that has a number.
    pub fn name_of(&self, id: &MessageId) -> Option<u64>
        ensures thread { (rows : List LinkRow) → AreLabelsOf rows self.now.labels → result ≡ thread_name rows (entries_of self.now.labels) id.now }
    {
        self.labels.name_of(id)
    }

    /// Where the name of the next id is looked for first, and that of this one; wherever a search begins, it finds the
    /// same.
    pub fn name_by_hint(&self, id: &MessageId, slot_hint: u64) -> (u64, Option<u64>)
        ensures { (rows : List LinkRow) → AreLabelsOf rows self.now.labels → result.1 ≡ thread_name rows (entries_of self.now.labels) id.now }
    {
        self.labels.name_by_hint(id, slot_hint)
    }

    /// All ids that have numbers, by rising numbers.
    pub fn entries(&self) -> Entries<'_>
        ensures { result ≡ entries_of self.now.labels }
    {
        self.labels.entries()
    }

    /// The ids of the thread of an id, by their numbers; none where the id has no number.
    pub fn thread_of(&self, id: &MessageId) -> Result<Many<MessageId>, NoMemory>
        ensures { IfOk result (λ ids. (rows : List LinkRow) → AreLabelsOf rows self.now.labels → ids ≡ map (λ entry. entry.0) (filter (λ entry. is_same rows id.now entry.0) (entries_of self.now.labels))) }
    {
        thread_uncounted::<Brand>(&self.labels, id, Blank::new(1))
    }

    /// The ids of the thread of a name, by their numbers; none where no thread has it.
    pub fn members(&self, thread: u64) -> Result<Many<MessageId>, NoMemory>
        ensures { IfOk result (λ ids. ids ≡ map (λ label. label.id) (named thread self.now.labels)) }
    {
        members_uncounted::<Brand>(&self.labels, thread, Blank::new(1))
    }

    /// Adds the row of a mail. Where there was no memory all labels are lost.
    pub fn add_row(&mut self, alloc: Global, row: &LinkRow) -> Result<(), NoMemory>
        requires { (numbered (entries_of self.old.labels) self.old.next (ids_of row.now)).1 ≤ 2 ^ 63 }
        ensures numbers { OnOk result ((entries_of self.new.labels, self.new.next) ≡ numbered (entries_of self.old.labels) self.old.next (ids_of row.now)) }
        ensures labels { OnOk result ((rows : List LinkRow) → AreLabelsOf rows self.old.labels → AreLabelsOf (row.now ∷ rows) self.new.labels) }
    {
        let more = new_len(alloc, &self.labels, row)?;
        let bytes = plus(self.bytes, more)?;
        self.bytes = 0;
        add_uncounted::<Brand>(&mut self.labels, row, Blank::new(1))?;
        self.bytes = bytes;
        add_new_hint(&self.labels, &mut self.hints, &row.id)?;
        Ok(())
    }

    /// The ids of the thread of an id, by their numbers, where none of them has a file. A thread that loses its messages one by
    /// one is walked as it loses the first, and as it goes.
    pub fn dead_thread(
        &mut self,
        file_table: &FileTable,
        id: &MessageId,
    ) -> Result<Option<Many<MessageId>>, NoMemory>
        requires { AreFiled file_table.now }
        ensures labels { OnOk result (self.new ≡ self.old) }
        ensures dead { IfOk result (IsDeadThread self.old.labels (files_in file_table.now) id.now) }
    {
        let known = knows_live(&self.labels, &mut self.hints, file_table, id)?;
        if known {
            return Ok(None);
        }
        let ids = thread_uncounted::<Brand>(&self.labels, id, Blank::new(1))?;
        let live = add_hints(&self.labels, &mut self.hints, file_table, ids.as_slice())?;
        if live {
            return Ok(None);
        }
        Ok(Some(ids))
    }

    /// Lets go the thread of an id, of which these are the ids. Where there was no memory all labels are lost.
    pub fn drop_thread(&mut self, id: &MessageId, members: &[MessageId]) -> Result<(), NoMemory>
        requires rows { (rows : List LinkRow) × AreLabelsOf rows self.old.labels }
        requires members { (rows : List LinkRow) → AreLabelsOf rows self.old.labels → members.now ≡ map (λ entry. entry.0) (filter (λ entry. is_same rows id.now entry.0) (entries_of self.old.labels)) }
        ensures next { OnOk result (self.new.next ≡ self.old.next) }
        ensures entries { OnOk result ((rows : List LinkRow) → AreLabelsOf rows self.old.labels → entries_of self.new.labels ≡ filter (λ entry. not (is_same rows id.now entry.0)) (entries_of self.old.labels)) }
        ensures labels { OnOk result ((rows : List LinkRow) → AreLabelsOf rows self.old.labels → AreLabelsOf (filter (λ row. not (is_same rows id.now row.id)) rows) self.new.labels) }
    {
        let less = ids_len(members)?;
        let bytes = self.bytes.saturating_sub(less);
        self.bytes = 0;
        self.labels.drop_thread_in_place(id)?;
        self.bytes = bytes;
        Ok(())
    }
}

/// The copy is a clone.
impl Copies for MeasuredLabels {
    fn copy(&self) -> Result<MeasuredLabels, NoMemory> {
        Ok(MeasuredLabels {
            labels: self.labels.copy()?,
            bytes: self.bytes,
            hints: self.hints.share()?,
        })
    }
}
