//! The changes of a commit, one after the other: `nm_state` makes the next snapshot so.

ghost use Rattle.std.specs.Prelude.{◌≡◌, ◌≤◌, ◌^◌, fold, OnOk};
ghost use Rattle.nm_commit.specs.Files.{FitChanges, FitsChange};
ghost use Rattle.nm_model_index.specs.Index.{applied};
ghost use Rattle.nm_parts.specs.Parts.{AreParts, base_of};

use crate::changes::{add_mail, move_mail, tag_message};
use crate::parts::Parts;
use crate::removal::drop_mail;
use nm_base::NoMemory;
use nm_commit::Change;
use nm_model_index::{files_follow_their_changes, numbers_never_fall};
use std::alloc::Global;

fn apply_change(alloc: Global, parts: &mut Parts, change: &Change) -> Result<(), NoMemory>
    requires parts { AreParts parts.old }
    requires fits { FitsChange (base_of parts.old).files change.now }
    requires room { (applied (base_of parts.old) change.now).next ≤ 2 ^ 63 }
    ensures parts { OnOk result (AreParts parts.new) }
    ensures base { OnOk result (base_of parts.new ≡ applied (base_of parts.old) change.now) }
{
    match change {
        Change::Add { path, facts } => add_mail(alloc, parts, path, facts),
        Change::Drop { path } => drop_mail(alloc, parts, path),
        Change::Move { from, to } => move_mail(parts, from, to),
        Change::SetTags { id, tags } => tag_message(alloc, parts, id, tags),
    }
}

/// Makes the changes in order.
pub fn apply_changes(alloc: Global, parts: &mut Parts, changes: &[Change]) -> Result<(), NoMemory>
    requires parts { AreParts parts.old }
    requires fits { FitChanges (base_of parts.old).files changes.now }
    requires room { (fold applied (base_of parts.old) changes.now).next ≤ 2 ^ 63 }
    ensures parts { OnOk result (AreParts parts.new) }
    ensures base { OnOk result (base_of parts.new ≡ fold applied (base_of parts.old) changes.now) }
{
    files_follow_their_changes();
    numbers_never_fall();
    'changes: for change in changes {
        apply_change(alloc, parts, change)?;
    }
    Ok(())
}
