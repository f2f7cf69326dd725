//! Hints at live messages of a thread, for `measured_labels`: a thread that loses its messages one by one is then not walked
//! for each of them. A thread gets its hints when it first loses a message and stays, and one more for each mail that comes; a
//! hint at a message without a file is removed once it is met. Each is tested where it is used, so nothing rests on them.

ghost use Rattle.std.specs.Prelude.{◌≡◌, true, ℕ, List, IfOk, Contains};
ghost use Rattle.std.specs.Bool.{OnTrue};
ghost use Rattle.std.specs.List.{list_any};
ghost use Rattle.nm_base.specs.declared.facts.LinkRow.{LinkRow};
ghost use Rattle.nm_commit.specs.Files.{has_id};
ghost use Rattle.nm_threads.specs.Labels.{AreLabelsOf, entries_of};
ghost use Rattle.nm_tables.specs.FileTable.{AreFiled, files_in};
ghost use Rattle.nm_tables.specs.Hints.{LivesIn, thread_ids};

use crate::file_table::{FileTable, is_live};
use nm_base::{Copies, MessageId, NoMemory};
use nm_shared::SharedMap;
use nm_threads::{Labels, a_thread_has_one_name, same_is_what_is_computed};

/// Messages by the names of their threads and their numbers.
pub type Hints = SharedMap<(u64, u64), MessageId>;

/// The first hint of the thread of this name.
fn first_hint(hints: &Hints, name: u64) -> Option<&((u64, u64), MessageId)> {
    let mut rest = hints.iter_from(&(name, 0));
    let hint = rest.next()?;
    let (of, _) = hint.0;
    if of == name { Some(hint) } else { None }
}

fn is_named(labels: &Labels, name: u64, id: &MessageId) -> bool
    ensures { OnTrue result ((number : ℕ) × Contains labels.now.labels (record { id = id.now; number = number; name = name })) }
{
    match labels.name_of(id) {
        Some(own) => own == name,
        None => false,
    }
}

fn lives_in(labels: &Labels, file_table: &FileTable, name: u64, id: &MessageId) -> bool
    requires { AreFiled file_table.now }
    ensures { OnTrue result (LivesIn (files_in file_table.now) labels.now.labels name id.now) }
{
    if !is_live(file_table, id) {
        return false;
    }
    is_named(labels, name, id)
}

/// Says whether a hint of the thread of the id is at a message with a file. Those before it are removed.
pub fn knows_live(
    labels: &Labels,
    hints: &mut Hints,
    file_table: &FileTable,
    id: &MessageId,
) -> Result<bool, NoMemory>
    requires { AreFiled file_table.now }
    ensures { IfOk result (λ live. OnTrue live ((rows : List LinkRow) → AreLabelsOf rows labels.now.labels → list_any (has_id (files_in file_table.now)) (thread_ids rows (entries_of labels.now.labels) id.now) ≡ true)) }
{
    a_thread_has_one_name();
    same_is_what_is_computed();
    // No code needs the next number; that no two ids have one number comes with it.
    let _ = labels.next();
    let Some(name) = labels.name_of(id) else {
        return Ok(false);
    };
    let live = hints_live(labels, hints, file_table, name)?;
    Ok(live)
}

/// The same by the name of the thread.
fn hints_live(
    labels: &Labels,
    hints: &mut Hints,
    file_table: &FileTable,
    name: u64,
) -> Result<bool, NoMemory>
    requires { AreFiled file_table.now }
    ensures { IfOk result (λ live. OnTrue live ((id : List ℕ) × LivesIn (files_in file_table.now) labels.now.labels name id)) }
{
    'hints: for _ in 0..hints.len() {
        let Some(hint) = first_hint(hints, name) else {
            return Ok(false);
        };
        if lives_in(labels, file_table, name, &hint.1) {
            return Ok(true);
        }
        let key = hint.0;
        hints.remove(&key)?;
    }
    Ok(false)
}

fn add_hint(labels: &Labels, hints: &mut Hints, id: &MessageId) -> Result<(), NoMemory> {
    let Some(number) = labels.number_of(id) else {
        return Ok(());
    };
    let Some(name) = labels.name_of(id) else {
        return Ok(());
    };
    hints.insert((name, number), id.copy()?)
}

/// Adds a hint at each of the messages that has a file, and says whether one has.
pub fn add_hints(
    labels: &Labels,
    hints: &mut Hints,
    file_table: &FileTable,
    ids: &[MessageId],
) -> Result<bool, NoMemory>
    requires { AreFiled file_table.now }
    ensures { IfOk result (λ live. live ≡ list_any (has_id (files_in file_table.now)) ids.now) }
{
    let mut live = false;
    'ids: for id in ids {
        if is_live(file_table, id) {
            live = true;
            add_hint(labels, hints, id)?;
        }
    }
    Ok(live)
}

/// Adds a hint at a message that has come, where its thread has hints.
pub fn add_new_hint(labels: &Labels, hints: &mut Hints, id: &MessageId) -> Result<(), NoMemory> {
    // Most snapshots have none.
    if hints.is_empty() {
        return Ok(());
    }
    let Some(name) = labels.name_of(id) else {
        return Ok(());
    };
    if first_hint(hints, name).is_none() {
        return Ok(());
    }
    add_hint(labels, hints, id)
}
