//! The messages that a search finds, in its order, for `search` and `show`.

ghost use Rattle.std.specs.Prelude.{◌≡◌, ◌-ℤ◌, pos, map, if◌then◌else◌, IfOk};
ghost use Rattle.nm_model_answer.specs.Search.{message_date, ordered, rank_of};
ghost use Rattle.nm_model_answer.specs.View.{lead_date};

use nm_base::{Many, MessageId, NoMemory};
use nm_state::{MessageFiles, Snapshot};
use std::alloc::Global;

/// The messages by date, the oldest or the newest first; those of one date stay in their order. The first one's files are looked
/// for at `slot_hint` first.
pub(crate) fn ordered(
    alloc: Global,
    snapshot: &Snapshot,
    oldest: bool,
    ids: Many<MessageId>,
    slot_hint: u64,
) -> Result<Many<MessageId>, NoMemory>
    ensures { IfOk result (λ sorted. sorted ≡ ordered snapshot.now oldest ids) }
{
    let mut sorted = ranked(alloc, snapshot, oldest, ids, slot_hint)?;
    sorted.sort_by_key(|message| message.0)?;
    ids_of(alloc, sorted)
}

/// The messages, each after its rank. They come by their numbers, so the files of one are mostly next to those of the last.
fn ranked(
    alloc: Global,
    snapshot: &Snapshot,
    oldest: bool,
    ids: Many<MessageId>,
    slot_hint: u64,
) -> Result<Vec<(i128, MessageId)>, NoMemory>
    ensures { IfOk result (λ ranked. ranked.items ≡ map (λ id. (rank_of snapshot.now oldest id, id)) ids) }
{
    let mut ranked = Vec::with_capacity(alloc, ids.len())?;
    let mut slot_hint = slot_hint;
    'ids: for id in ids.into_vec() {
        let (next, date) = date_by_hint(snapshot, &id, slot_hint);
        ranked.push((rank_by(oldest, date), id))?;
        slot_hint = next;
    }
    Ok(ranked)
}

fn rank_by(oldest: bool, date: i64) -> i128
    ensures { result ≡ (if oldest then date else pos 0 -ℤ date) }
{
    if oldest {
        return i128::from(date);
    }
    -i128::from(date)
}

/// The messages without their ranks.
fn ids_of(alloc: Global, ranked: Vec<(i128, MessageId)>) -> Result<Many<MessageId>, NoMemory>
    ensures { IfOk result (λ ids. ids ≡ map (λ message. message.1) ranked.items) }
{
    let mut ids = Vec::with_capacity(alloc, ranked.len())?;
    'messages: for (_, id) in ranked {
        ids.push(id)?;
    }
    Ok(Many::from_vec(ids))
}

/// The date of a message, and where the files of the next one are looked for first.
pub(crate) fn date_by_hint(snapshot: &Snapshot, id: &MessageId, slot_hint: u64) -> (u64, i64)
    ensures { result.1 ≡ message_date snapshot.now id.now }
{
    let Some((next, files)) = snapshot.files_by_hint(id, slot_hint) else {
        return (slot_hint, 0);
    };
    (next, lead_date(files))
}

/// The date of a message: that of its lead file.
pub(crate) fn message_date(snapshot: &Snapshot, id: &MessageId) -> i64
    ensures { result ≡ message_date snapshot.now id.now }
{
    let Some(files) = snapshot.files(id) else {
        return 0;
    };
    lead_date(files)
}

fn lead_date(files: MessageFiles<'_>) -> i64
    ensures { result ≡ lead_date files.entry }
{
    let mut files = files;
    match files.next() {
        Some((_, facts)) => facts.date,
        None => 0,
    }
}
