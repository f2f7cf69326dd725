//! The changes of a commit that takes no mail out, by two threads: one makes the labels while the other files the mails and sets
//! the tags. `nm_state` has large commits made so.

ghost use Rattle.std.specs.Prelude.{◌≡◌, ◌∷◌, List, fold, IfOk, IsTrue, OnOk};
ghost use Rattle.std.specs.List.{AllByRecursion};
ghost use Rattle.nm_commit.specs.Files.{FitChanges, FitsChange};
ghost use Rattle.nm_base.specs.declared.facts.LinkRow.{LinkRow};
ghost use Rattle.nm_commit.specs.declared.change.Change.TheVariants.{SetTags};
ghost use Rattle.nm_model_index.specs.Index.{applied, row_of};
ghost use Rattle.nm_threads.specs.Labels.{AreLabelsOf, entries_of, numbered};
ghost use Rattle.nm_tables.specs.FileTable.{AreFiled, files_in};
ghost use Rattle.nm_parts.specs.Parts.{AreParts, base_of};
ghost use Rattle.nm_parts.specs.Halves.{InTurn, IsFiledBy, IsLabelledBy, TakesNoneOut};

use crate::message_tags::set_tags;
use crate::parts::Parts;
use crate::thread_ids::{label_mail, tag_mail, thread_laws};
use nm_base::{Copies, Facts, MessageId, NoMemory, Tags};
use nm_commit::Change;
use nm_model_index::files_follow_their_changes;
use nm_shared::Shared;
use nm_tables::{FileTable, MeasuredLabels, MessageTags, add_file, move_file};
use std::alloc::Global;
use std::thread::{Threads, join};

/// One half of the parts: the files, and the tags of their messages.
#[derive(Drop)]
pub struct Filed {
    pub file_table: FileTable,
    pub tags: MessageTags,
}

/// Whether all changes leave each mail in the index.
pub fn take_none_out(changes: &[Change]) -> bool
    ensures { IsTrue result → AllByRecursion TakesNoneOut changes.now }
{
    'changes: for change in changes {
        if let Change::Drop { .. } = change {
            return false;
        }
    }
    true
}

/// Makes the changes in order. Both halves begin with clones, so where one runs out of memory the parts stay as they are.
pub fn apply_by_halves<R: Threads>(
    rt: &R,
    alloc: Global,
    parts: &Parts,
    changes: &[Change],
) -> Result<Parts, NoMemory>
    requires parts { AreParts parts.now }
    requires none_out { AllByRecursion TakesNoneOut changes.now }
    requires fits { FitChanges (base_of parts.now).files changes.now }
    ensures parts { IfOk result AreParts }
    ensures base { IfOk result (λ new. base_of new ≡ fold applied (base_of parts.now) changes.now) }
{
    thread_laws();
    files_follow_their_changes();
    let kept = parts.kept.share()?;
    let labels = parts.labels.copy()?;
    let filed = Filed {
        file_table: parts.file_table.share()?,
        tags: parts.tags.share()?,
    };
    let (labels, filed) = at_once(rt, alloc, labels, filed, changes);
    let labels = labels?;
    let filed = filed?;
    let Filed { file_table, tags } = filed;
    Ok(Parts {
        revision: parts.revision,
        file_table,
        kept,
        labels,
        tags,
    })
}

/// Both halves after the changes.
fn at_once<R: Threads>(
    rt: &R,
    alloc: Global,
    labels: MeasuredLabels,
    filed: Filed,
    changes: &[Change],
) -> (Result<MeasuredLabels, NoMemory>, Result<Filed, NoMemory>)
    requires filed { AreFiled filed.file_table }
    requires none_out { AllByRecursion TakesNoneOut changes.now }
    requires fits { FitChanges (files_in filed.file_table) changes.now }
    ensures labels { IfOk result.0 (λ new. InTurn IsLabelledBy changes.now labels new) }
    ensures filed { IfOk result.1 (λ new. InTurn IsFiledBy changes.now filed new) }
{
    let label = move || -> Result<MeasuredLabels, NoMemory>
        requires { AllByRecursion TakesNoneOut changes.now }
        ensures { IfOk result (λ new. InTurn IsLabelledBy changes.entry.now labels new) }
    { label_all(alloc, labels, changes) };
    let file = move || -> Result<Filed, NoMemory>
        requires filed { AreFiled filed.file_table }
        requires none_out { AllByRecursion TakesNoneOut changes.now }
        requires fits { FitChanges (files_in filed.file_table) changes.now }
        ensures { IfOk result (λ new. InTurn IsFiledBy changes.entry.now filed new) }
    { file_all(alloc, filed, changes) };
    join(rt, label, file)
}

/// The labels after the changes.
fn label_all(
    alloc: Global,
    before: MeasuredLabels,
    changes: &[Change],
) -> Result<MeasuredLabels, NoMemory>
    requires { AllByRecursion TakesNoneOut changes.now }
    ensures { IfOk result (λ new. InTurn IsLabelledBy changes.now before new) }
{
    let mut labels = before;
    'changes: for change in changes {
        label_one(alloc, &mut labels, change)?;
    }
    Ok(labels)
}

/// The labels after a change.
fn label_one(alloc: Global, labels: &mut MeasuredLabels, change: &Change) -> Result<(), NoMemory>
    requires { TakesNoneOut change.now }
    ensures { OnOk result (IsLabelledBy change.now labels.old labels.new) }
{
    match change {
        Change::Add { facts, .. } => label_new(alloc, labels, facts),
        Change::Drop { .. } => unreachable!(),
        Change::Move { .. } | Change::SetTags { .. } => Ok(()),
    }
}

/// The labels once the mail is there. Where its ids might pass 2^63, that is reported as no memory.
fn label_new(
    alloc: Global,
    labels: &mut MeasuredLabels,
    facts: &Shared<Facts>,
) -> Result<(), NoMemory>
    ensures numbers { OnOk result ((entries_of labels.new.labels, labels.new.next) ≡ numbered (entries_of labels.old.labels) labels.old.next (facts.now.id ∷ facts.now.links)) }
    ensures labels { OnOk result ((rows : List LinkRow) → AreLabelsOf rows labels.old.labels → AreLabelsOf (row_of facts.now ∷ rows) labels.new.labels) }
{
    let ids = (facts.get().links.len() as u64).saturating_add(1);
    if ids > (1 << 63) - labels.next() {
        return Err(NoMemory);
    }
    label_mail(alloc, labels, facts)
}

/// The files and tags after the changes.
fn file_all(alloc: Global, before: Filed, changes: &[Change]) -> Result<Filed, NoMemory>
    requires filed { AreFiled before.file_table }
    requires none_out { AllByRecursion TakesNoneOut changes.now }
    requires fits { FitChanges (files_in before.file_table) changes.now }
    ensures { IfOk result (λ new. InTurn IsFiledBy changes.now before new) }
{
    let mut filed = before;
    'changes: for change in changes {
        file_one(alloc, &mut filed, change)?;
    }
    Ok(filed)
}

/// The files and tags after a change.
fn file_one(alloc: Global, filed: &mut Filed, change: &Change) -> Result<(), NoMemory>
    requires filed { AreFiled filed.old.file_table }
    requires none_out { TakesNoneOut change.now }
    requires fits { FitsChange (files_in filed.old.file_table) change.now }
    ensures { OnOk result (IsFiledBy change.now filed.old filed.new) }
{
    match change {
        Change::Add { path, facts } => {
            tag_mail(alloc, &filed.file_table, &mut filed.tags, facts)?;
            add_file(alloc, &mut filed.file_table, path, facts)
        }
        Change::Drop { .. } => unreachable!(),
        Change::Move { from, to } => move_file(&mut filed.file_table, from, to),
        Change::SetTags { id, tags } => tag_one(alloc, filed, id, tags),
    }
}

/// The files and tags once a message has these tags and no others.
fn tag_one(alloc: Global, filed: &mut Filed, id: &MessageId, tags: &Tags) -> Result<(), NoMemory>
    ensures { OnOk result (IsFiledBy (SetTags id.now tags.now) filed.old filed.new) }
{
    set_tags(alloc, &mut filed.tags, id, tags.copy()?)?;
    Ok(())
}
