//! The messages of the threads that are printed, for `summary` and `summary_json`.

ghost use Rattle.std.specs.Prelude.{◌≡◌, ◌==◌, ◌++◌, ℕ, [], ◌∷◌, Some, true, nat_eq, if◌then◌else◌, IfOk, OnOk};
ghost use Rattle.std.specs.List.{list_any};
ghost use Rattle.nm_model_answer.specs.Summary.{in_thread};
ghost use Rattle.nm_model_answer.specs.Test.{is_thread};
ghost use Rattle.nm_render.specs.Groups.{listed};

use crate::lists::set_of;
use nm_base::{Copies, Many, MessageId, NoMemory, TextSet};
use nm_state::{SlotGuess, Snapshot};
use std::alloc::Global;
use std::collections::BTreeMap;

/// Messages by the names of their threads.
pub(crate) type Groups = BTreeMap<u64, Many<MessageId>>;

/// Those of the messages that are of the threads of these names, by their threads, those of each in their order.
pub(crate) fn groups_of(
    alloc: Global,
    snapshot: &Snapshot,
    names: &[u64],
    ids: &[MessageId],
) -> Result<Groups, NoMemory>
    ensures { IfOk result (λ groups. (name : ℕ) → list_any (nat_eq name) names.now ≡ true → listed groups name ≡ in_thread snapshot.now name ids.now) }
{
    let set = set_of(alloc, names)?;
    let mut groups = BTreeMap::new(alloc);
    let mut guess = SlotGuess::new();
    'ids: for id in ids {
        let (behind, thread) = snapshot.thread_by_hint(id, guess.hint());
        guess = guess.with(behind);
        add_message(alloc, &mut groups, &set, thread, id)?;
    }
    Ok(groups)
}

/// Adds a message where its thread is one of these.
fn add_message(
    alloc: Global,
    groups: &mut Groups,
    names: &TextSet<u64>,
    thread: Option<u64>,
    id: &MessageId,
) -> Result<(), NoMemory>
    ensures { OnOk result ((name : ℕ) → list_any (nat_eq name) names.now ≡ true → listed groups.new name ≡ listed groups.old name ++ (if is_thread (Some name) thread then id.now ∷ [] else [])) }
{
    let Some(thread) = thread else {
        return Ok(());
    };
    if names.contains(&thread) {
        add_under(alloc, groups, thread, id)?;
    }
    Ok(())
}

fn add_under(
    alloc: Global,
    groups: &mut Groups,
    thread: u64,
    id: &MessageId,
) -> Result<(), NoMemory>
    ensures { OnOk result ((name : ℕ) → listed groups.new name ≡ listed groups.old name ++ (if name == thread then id.now ∷ [] else [])) }
{
    let mut list = match groups.remove(&thread) {
        Some(list) => list,
        None => Many::new(alloc),
    };
    list.push(id.copy()?)?;
    groups.insert(thread, list)?;
    Ok(())
}
