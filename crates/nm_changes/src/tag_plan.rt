//! The changes that give messages the tags that are wanted, and the files that are then to be renamed: for the command `tag` of
//! `nm_writer`, which also takes the paths of a message from here.

ghost use Rattle.std.specs.Prelude.{◌≡◌, ◌++◌, IfOk, OnOk};
ghost use Rattle.nm_flags.specs.Renames.{renames};
ghost use Rattle.nm_model_answer.specs.RenameOutcomes.{renames_for};
ghost use Rattle.nm_model_answer.specs.View.{message_paths, tags_of};
ghost use Rattle.nm_model_plan.specs.NameTags.{set_tags};
ghost use Rattle.nm_model_plan.specs.TagCommit.{tag_changes};
ghost use Rattle.nm_changes.specs.WantedTags.{AreTouched, renames_of};

use crate::wanted_tags::Wanted;
use nm_base::{Copies, MailPath, Many, MessageId, NoMemory, Tags};
use nm_commit::Change;
use nm_flags::{Rename, rename_plan};
use nm_state::Snapshot;
use std::alloc::Global;

/// The changes of tags, and the renames that follow them.
#[derive(Drop)]
pub struct Planned {
    pub changes: Many<Change>,
    pub renames: Many<Rename>,
}

/// What gives the messages the tags that are wanted: of those that may have others, each is looked up in both snapshots.
pub fn plan_tags(alloc: Global, shown: &Snapshot, wanted: &Wanted) -> Result<Planned, NoMemory>
    requires touched { AreTouched shown.now wanted.now.after wanted.now.ids }
    ensures changes { IfOk result (λ planned. planned.changes ≡ tag_changes shown.now wanted.now.after) }
    ensures renames { IfOk result (λ planned. planned.renames ≡ renames_for shown.now wanted.now.after) }
{
    let mut changes = Many::new(alloc);
    let mut plan = Many::new(alloc);
    'ids: for id in wanted.ids.as_slice() {
        plan_message(alloc, shown, &wanted.after, id, &mut changes, &mut plan)?;
    }
    Ok(Planned {
        changes,
        renames: plan,
    })
}

/// Gives a message the tags that are wanted, and its files the names that follow, where it has others.
fn plan_message(
    alloc: Global,
    shown: &Snapshot,
    after: &Snapshot,
    id: &MessageId,
    changes: &mut Many<Change>,
    plan: &mut Many<Rename>,
) -> Result<(), NoMemory>
    ensures changes { OnOk result (changes.new ≡ changes.old ++ set_tags id.now (tags_of shown.now id.now) (tags_of after.now id.now)) }
    ensures renames { OnOk result (plan.new ≡ plan.old ++ renames_of shown.now after.now id.now) }
{
    let old = tags_of(alloc, shown, id)?;
    let new = tags_of(alloc, after, id)?;
    if old == new {
        return Ok(());
    }
    add_renames(alloc, shown, id, &new, plan)?;
    let id = id.copy()?;
    changes.push(Change::SetTags { id, tags: new })?;
    Ok(())
}

fn tags_of(alloc: Global, shown: &Snapshot, id: &MessageId) -> Result<Tags, NoMemory>
    ensures { IfOk result (λ tags. tags ≡ tags_of shown.now id.now) }
{
    match shown.tags(id) {
        Some(tags) => tags.copy(),
        None => Ok(Tags::new(alloc)),
    }
}

/// Adds the renames of a message's files that follow these tags.
fn add_renames(
    alloc: Global,
    shown: &Snapshot,
    id: &MessageId,
    tags: &Tags,
    plan: &mut Many<Rename>,
) -> Result<(), NoMemory>
    ensures { OnOk result (plan.new ≡ plan.old ++ renames tags.now (message_paths shown.now.files id.now)) }
{
    let paths = message_paths(alloc, shown, id)?;
    let more = rename_plan(alloc, tags, &paths)?;
    'more: for rename in more.into_vec() {
        plan.push(rename)?;
    }
    Ok(())
}

/// The paths of a message's files, in the order of their arrival.
pub fn message_paths(
    alloc: Global,
    after: &Snapshot,
    id: &MessageId,
) -> Result<Many<MailPath>, NoMemory>
    ensures { IfOk result (λ paths. paths ≡ message_paths after.now.files id.now) }
{
    let mut paths = Many::new(alloc);
    let Some(files) = after.files(id) else {
        return Ok(paths);
    };
    'files: for file in files {
        paths.push(file.0.copy()?)?;
    }
    Ok(paths)
}
