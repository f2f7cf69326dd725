//! A mail that goes, for `commit_changes`: its row is kept, and then what no live message holds goes. Only the thread of
//! the mail can have lost its last live message, so nothing else is looked at.

ghost use Rattle.std.specs.Prelude.{◌≡◌, ◌≢◌, ◌∷◌, [], ℕ, List, true, IfOk, OnOk};
ghost use Rattle.nm_commit.specs.Files.{has_id, has_path};
ghost use Rattle.nm_base.specs.declared.facts.Facts.{Facts};
ghost use Rattle.nm_model_index.specs.Index.{files_at, pruned, without_first};
ghost use Rattle.nm_tables.specs.FileTable.{AreFiled, files_in};
ghost use Rattle.nm_parts.specs.Parts.{AreLoose, AreParts, AreTagged, base_of, tags_after, without_file};

use crate::parts::Parts;
use crate::thread_ids::{row_of, thread_laws};
use nm_base::{Facts, MailPath, MessageId, NoMemory};
use nm_shared::Shared;
use nm_tables::{FileTable, MessageTags, forget_rows, is_live, keep_row, remove_file};
use std::alloc::Global;

/// Lets go the tags of a message that has no file.
fn untag(
    file_table: &FileTable,
    tags: &mut MessageTags,
    message: &MessageId,
) -> Result<(), NoMemory>
    requires { AreFiled file_table.now }
    ensures tags { OnOk result (tags.new ≡ tags_after (files_in file_table.now) tags.old message.now) }
    ensures tagged { OnOk result ((files : List (List ℕ × Facts)) → AreTagged files tags.old → has_id files message.now ≡ true
        → ((other : List ℕ) → other ≢ message.now → has_id (files_in file_table.now) other ≡ has_id files other) → AreTagged (files_in file_table.now) tags.new) }
{
    if is_live(file_table, message) {
        return Ok(());
    }
    tags.remove(message)?;
    Ok(())
}

/// Takes the file out, and keeps its row; the tags go with the last file of a message.
fn take_out(alloc: Global, parts: &mut Parts, path: &MailPath) -> Result<Shared<Facts>, NoMemory>
    requires parts { AreParts parts.old }
    requires there { has_path (base_of parts.old).files path.now ≡ true }
    ensures parts { IfOk result (λ facts. AreLoose parts.new facts.id) }
    ensures facts { IfOk result (λ facts. files_at (base_of parts.old) path.now ≡ (path.now, facts) ∷ []) }
    ensures base { IfOk result (λ facts. base_of parts.new ≡ without_file (base_of parts.old) path.now facts) }
{
    thread_laws();
    let facts = remove_file(alloc, &mut parts.file_table, path)?;
    let row = row_of(facts.get())?;
    keep_row(alloc, &mut parts.kept, row)?;
    untag(&parts.file_table, &mut parts.tags, &facts.get().id)?;
    Ok(facts)
}

/// Lets go what is of the thread of the id, if no message of the thread is live.
fn prune(alloc: Global, parts: &mut Parts, id: &MessageId) -> Result<(), NoMemory>
    requires { AreLoose parts.old id.now }
    ensures parts { OnOk result (AreParts parts.new) }
    ensures base { OnOk result (base_of parts.new ≡ pruned (base_of parts.old)) }
{
    thread_laws();
    // Where the mail was moved, another file of the message is there.
    if is_live(&parts.file_table, id) {
        return Ok(());
    }
    let Some(dead) = parts.labels.dead_thread(&parts.file_table, id)? else {
        return Ok(());
    };
    parts.labels.drop_thread(id, dead.as_slice())?;
    forget_rows(alloc, &mut parts.kept, dead.as_slice())?;
    Ok(())
}

/// A mail is removed.
pub fn drop_mail(alloc: Global, parts: &mut Parts, path: &MailPath) -> Result<(), NoMemory>
    requires parts { AreParts parts.old }
    requires there { has_path (base_of parts.old).files path.now ≡ true }
    ensures parts { OnOk result (AreParts parts.new) }
    ensures base { OnOk result (base_of parts.new ≡ without_first (base_of parts.old) path.now (files_at (base_of parts.old) path.now)) }
{
    let facts = take_out(alloc, parts, path)?;
    prune(alloc, parts, &facts.get().id)?;
    Ok(())
}
