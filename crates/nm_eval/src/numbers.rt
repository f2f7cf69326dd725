//! Messages by their numbers: in this order `matches` tests those that a query names, and the commits of `nm_writer` set tags.

ghost use Rattle.std.specs.Prelude.{◌≡◌, ◌&&◌, ◌∷◌, ◌++◌, [], ℕ, List, IfOk, OnOk};
ghost use Rattle.std.specs.List.{filter};
ghost use Rattle.nm_base.specs.Order.{has_text};
ghost use Rattle.nm_model_index.specs.Index.{live_ids};
ghost use Rattle.nm_eval.specs.Numbers.{live_at_numbers};

use nm_base::{Copies, Many, MessageId, NoMemory};
use nm_state::{Snapshot, a_snapshot_is_a_valid_index};
use std::alloc::Global;
use std::collections::BTreeMap;

/// Of the messages those that have a file, by their numbers, each once.
pub fn by_numbers(
    alloc: Global,
    snapshot: &Snapshot,
    ids: &[MessageId],
) -> Result<Many<MessageId>, NoMemory>
    ensures { IfOk result (λ live. live ≡ filter (has_text ids.now) (live_ids snapshot.now.files snapshot.now.entries)) }
{
    let mut numbered: BTreeMap<u64, MessageId> = BTreeMap::new(alloc);
    'ids: for id in ids {
        add_numbered(snapshot, id, &mut numbered)?;
    }
    let live: Vec<MessageId> = numbered.into_values().collect(alloc)?;
    Ok(Many::from_vec(live))
}

/// Puts the message at its number, where it has a file. `numbered` has those of the ids so far.
pub fn add_numbered(
    snapshot: &Snapshot,
    id: &MessageId,
    numbered: &mut BTreeMap<u64, MessageId>,
) -> Result<(), NoMemory>
    ensures { OnOk result ((ids : List (List ℕ)) → numbered.old.entries ≡ live_at_numbers snapshot.now ids
        → numbered.new.entries ≡ live_at_numbers snapshot.now (ids ++ id.now ∷ [])) }
{
    a_snapshot_is_a_valid_index(snapshot);
    if !snapshot.is_live(id) {
        return Ok(());
    }
    let Some(number) = snapshot.number(id) else {
        return Ok(());
    };
    numbered.insert(number, id.copy()?)?;
    Ok(())
}
