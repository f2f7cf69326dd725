//! The messages of one thread, by its labels: no other thread is looked at. A `snapshot` answers so.

ghost use Rattle.std.specs.Prelude.{◌≡◌, IfOk};
ghost use Rattle.std.specs.List.{filter};
ghost use Rattle.nm_commit.specs.Files.{has_id};
ghost use Rattle.nm_tables.specs.FileTable.{AreFiled, files_in};
ghost use Rattle.nm_parts.specs.Parts.{AreParts, base_of};
ghost use Rattle.nm_state.specs.Snapshot.{thread_messages};

use nm_base::{Many, MessageId, NoMemory};
use nm_parts::Parts;
use nm_tables::{FileTable, files_by_hint};
use std::alloc::Global;

/// The messages of the thread of a name that have a file, by their numbers.
pub fn messages_of(alloc: Global, parts: &Parts, thread: u64) -> Result<Many<MessageId>, NoMemory>
    requires { AreParts parts.now }
    ensures { IfOk result (λ ids. ids ≡ thread_messages (base_of parts.now) thread) }
{
    let ids = parts.labels.members(thread)?;
    let live = live_of(alloc, &parts.file_table, ids)?;
    Ok(live)
}

/// Those of the ids that have a file, in their order.
fn live_of(
    alloc: Global,
    file_table: &FileTable,
    ids: Many<MessageId>,
) -> Result<Many<MessageId>, NoMemory>
    requires { AreFiled file_table.now }
    ensures { IfOk result (λ live. live ≡ filter (has_id (files_in file_table.now)) ids) }
{
    let mut live = Many::new(alloc);
    // Messages mostly came in the order of their numbers.
    let mut slot_hint = 0;
    'ids: for id in ids.into_vec() {
        if let Some((next, _)) = files_by_hint(file_table, &id, slot_hint) {
            slot_hint = next;
            live.push(id)?;
        }
    }
    Ok(live)
}
