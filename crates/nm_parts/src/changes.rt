//! What each change does to the parts of a snapshot, for `commit_changes`. Where there is no memory the parts are of no use any more.

ghost use Rattle.std.specs.Prelude.{◌≡◌, ◌≤◌, ◌^◌, false, true, OnOk};
ghost use Rattle.nm_base.specs.Limits.{IsDate};
ghost use Rattle.nm_commit.specs.Files.{has_id, has_path, with_moved};
ghost use Rattle.nm_model_index.specs.Index.{with_mail, with_tags};
ghost use Rattle.nm_parts.specs.Parts.{AreParts, base_of, with_files};

use crate::message_tags::set_tags;
use crate::parts::Parts;
use crate::thread_ids::{label_mail, tag_mail, thread_laws};
use nm_base::{Copies, Facts, MailPath, MessageId, NoMemory, Tags};
use nm_shared::Shared;
use nm_tables::{add_file, move_file};
use std::alloc::Global;

/// A mail has come.
pub fn add_mail(
    alloc: Global,
    parts: &mut Parts,
    path: &MailPath,
    facts: &Shared<Facts>,
) -> Result<(), NoMemory>
    requires parts { AreParts parts.old }
    requires new { has_path (base_of parts.old).files path.now ≡ false }
    requires dated { IsDate facts.now.date }
    requires room { (with_mail (base_of parts.old) path.now facts.now).next ≤ 2 ^ 63 }
    ensures parts { OnOk result (AreParts parts.new) }
    ensures base { OnOk result (base_of parts.new ≡ with_mail (base_of parts.old) path.now facts.now) }
{
    thread_laws();
    tag_mail(alloc, &parts.file_table, &mut parts.tags, facts)?;
    label_mail(alloc, &mut parts.labels, facts)?;
    add_file(alloc, &mut parts.file_table, path, facts)?;
    Ok(())
}

/// A mail has another name.
pub fn move_mail(parts: &mut Parts, from: &MailPath, to: &MailPath) -> Result<(), NoMemory>
    requires parts { AreParts parts.old }
    requires there { has_path (base_of parts.old).files from.now ≡ true }
    requires free { has_path (base_of parts.old).files to.now ≡ false }
    ensures parts { OnOk result (AreParts parts.new) }
    ensures base { OnOk result (base_of parts.new ≡ with_files (base_of parts.old) (with_moved (base_of parts.old).files from.now to.now)) }
{
    thread_laws();
    move_file(&mut parts.file_table, from, to)?;
    Ok(())
}

/// A message that has a file has these tags and no others.
pub fn tag_message(
    alloc: Global,
    parts: &mut Parts,
    id: &MessageId,
    tags: &Tags,
) -> Result<(), NoMemory>
    requires parts { AreParts parts.old }
    requires live { has_id (base_of parts.old).files id.now ≡ true }
    ensures parts { OnOk result (AreParts parts.new) }
    ensures base { OnOk result (base_of parts.new ≡ with_tags (base_of parts.old) id.now tags.now) }
{
    set_tags(alloc, &mut parts.tags, id, tags.copy()?)?;
    Ok(())
}
