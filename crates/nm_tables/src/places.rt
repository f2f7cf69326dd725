//! The places of the files of each message, by the message's id, for `file_table`.

ghost use Rattle.std.specs.Prelude.{◌≡◌, [], ◌∷◌, ◌++◌, List, ℕ, Some, if◌then◌else◌, IfOk, OnOk};
ghost use Rattle.std.specs.Cmp.Lexicographic.{slice_cmp};
ghost use Rattle.std.specs.Ordering.{is_eq, nat_cmp};
ghost use Rattle.nm_tables.specs.FileTable.{at_text, told, told_places, without_place};

use nm_base::{Copies, Many, MessageId, NoMemory};
use nm_shared::{HashedMap, Shared};
use std::alloc::Global;

/// The places of a message's files, as a list of one's own.
fn places_of(
    alloc: Global,
    of_id: &HashedMap<MessageId, Shared<Many<u64>>>,
    id: &MessageId,
) -> Result<Many<u64>, NoMemory>
    ensures { IfOk result (λ places. places ≡ told_places of_id.now id.now) }
{
    match of_id.get(id) {
        None => Ok(Many::new(alloc)),
        Some(places) => places.get().copy(),
    }
}

/// A file of the message is at the place, after its other ones.
pub fn add_place(
    alloc: Global,
    of_id: &mut HashedMap<MessageId, Shared<Many<u64>>>,
    id: &MessageId,
    place: u64,
) -> Result<(), NoMemory>
    ensures { OnOk result ((other : List ℕ) → at_text other of_id.new ≡ (if is_eq (slice_cmp nat_cmp other id.now) then Some (told_places of_id.old id.now ++ place ∷ []) else at_text other of_id.old)) }
{
    let mut places = places_of(alloc, of_id, id)?;
    places.push(place)?;
    of_id.insert(id.copy()?, Shared::new(alloc, places)?)?;
    Ok(())
}

fn without(alloc: Global, places: &[u64], place: u64) -> Result<Many<u64>, NoMemory>
    ensures { IfOk result (λ others. others ≡ without_place places.now place) }
{
    let others: Vec<u64> = places
        .iter()
        .copied()
        .filter(|other| *other != place)
        .collect(alloc)?;
    Ok(Many::from_vec(others))
}

/// No file of the message is at the place any more.
pub fn remove_place(
    alloc: Global,
    of_id: &mut HashedMap<MessageId, Shared<Many<u64>>>,
    id: &MessageId,
    place: u64,
) -> Result<(), NoMemory>
    ensures { OnOk result ((other : List ℕ) → at_text other of_id.new ≡ (if is_eq (slice_cmp nat_cmp other id.now) then told (without_place (told_places of_id.old id.now) place) else at_text other of_id.old)) }
{
    let places = places_of(alloc, of_id, id)?;
    let others = without(alloc, places.as_slice(), place)?;
    if others.is_empty() {
        of_id.remove(id)?;
        return Ok(());
    }
    of_id.insert(id.copy()?, Shared::new(alloc, others)?)?;
    Ok(())
}
