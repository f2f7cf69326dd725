//! What a `new` of `nm_writer` reports, from the snapshots before and after it and from what was noted.

ghost use Rattle.std.specs.Prelude.{◌≡◌, ◌++◌, List, IfOk, OnOk, fold, length, if◌then◌else◌};
ghost use Rattle.std.specs.List.{flat_map};
ghost use Rattle.nm_model_answer.specs.NewText.{mail_given, only_in, skip_at, skip_given};
ghost use Rattle.nm_base.specs.Order.{insert};
ghost use Rattle.nm_commit.specs.declared.change.Commit.{Commit};
ghost use Rattle.nm_model_index.specs.Index.{folded};
ghost use Rattle.nm_sync.specs.Report.{lacking, report_with};

use nm_base::{Copies, MailPath, Many, MessageId, NoMemory, Skip, TextSet};
use nm_maildir::{Given, ReadAnswer};
use nm_model_answer::NewReport;
use nm_state::Snapshot;
use std::alloc::Global;

/// The report of a `new` that removed n files.
pub fn report(
    alloc: Global,
    before: &Snapshot,
    after: &Snapshot,
    removed: u64,
    given: &[Given],
) -> Result<NewReport, NoMemory>
    requires { (commits : List Commit) × (after.now ≡ folded before.now commits) }
    ensures { IfOk result (λ report. report ≡ report_with removed before.now.files after.now.files given.now) }
{
    let added = count_mails(given);
    let (born, died) = messages_changed(alloc, before, after)?;
    let skipped = skips(alloc, given)?;
    Ok(NewReport {
        added,
        removed,
        born,
        died,
        skipped,
    })
}

/// How many files were read and found to be mail.
fn count_mails(given: &[Given]) -> u64
    ensures { result ≡ length (flat_map mail_given given.now) }
{
    let mut count: usize = 0;
    'given: for answer in given {
        if is_mail(answer) {
            count += 1;
        }
    }
    count as u64
}

fn is_mail(answer: &Given) -> bool
    ensures { (if result then 1 else 0) ≡ length (mail_given answer.now) }
{
    match answer {
        Given::Read { path: _, answer } => matches!(answer, ReadAnswer::Mail),
        Given::Listed(_) | Given::Renamed { .. } => false,
    }
}

/// How many messages each snapshot lacks of the other, of the first one first. Where no commit is between them none is looked at.
fn messages_changed(
    alloc: Global,
    before: &Snapshot,
    after: &Snapshot,
) -> Result<(u64, u64), NoMemory>
    requires { (commits : List Commit) × (after.now ≡ folded before.now commits) }
    ensures born { IfOk result (λ counts. counts.0 ≡ length (only_in before.now.files after.now.files)) }
    ensures died { IfOk result (λ counts. counts.1 ≡ length (only_in after.now.files before.now.files)) }
{
    if before.revision() == after.revision() {
        return Ok((0, 0));
    }
    let born = ids_only_in(alloc, before, after)?;
    let died = ids_only_in(alloc, after, before)?;
    Ok((born, died))
}

/// How many messages of the second snapshot the first one lacks; no other ids are copied.
fn ids_only_in(alloc: Global, first: &Snapshot, second: &Snapshot) -> Result<u64, NoMemory>
    ensures { IfOk result (λ count. count ≡ length (only_in first.now.files second.now.files)) }
{
    let mut ids: TextSet<MessageId> = TextSet::new(alloc);
    'files: for file in second.files_in_order() {
        add_if_lacking(first, &file.1.id, &mut ids)?;
    }
    Ok(ids.len() as u64)
}

/// Puts the id into the set, where the snapshot has no file of it.
fn add_if_lacking(
    first: &Snapshot,
    id: &MessageId,
    ids: &mut TextSet<MessageId>,
) -> Result<(), NoMemory>
    ensures { OnOk result (ids.new ≡ fold insert ids.old (lacking first.now.files id.now)) }
{
    if first.is_live(id) {
        return Ok(());
    }
    ids.insert(id.copy()?)?;
    Ok(())
}

/// The files that were read and passed over.
fn skips(alloc: Global, given: &[Given]) -> Result<Many<(MailPath, Skip)>, NoMemory>
    ensures { IfOk result (λ skips. skips ≡ flat_map skip_given given.now) }
{
    let mut skips = Many::new(alloc);
    'given: for answer in given {
        add_skip(&mut skips, answer)?;
    }
    Ok(skips)
}

fn add_skip(skips: &mut Many<(MailPath, Skip)>, answer: &Given) -> Result<(), NoMemory>
    ensures { OnOk result (skips.new ≡ skips.old ++ skip_given answer.now) }
{
    match answer {
        Given::Read { path, answer } => add_read(skips, path, answer),
        _ => Ok(()),
    }
}

fn add_read(
    skips: &mut Many<(MailPath, Skip)>,
    path: &MailPath,
    answer: &ReadAnswer,
) -> Result<(), NoMemory>
    ensures { OnOk result (skips.new ≡ skips.old ++ skip_at path.now answer.now) }
{
    let skip = match answer {
        ReadAnswer::NotMail => Skip::NotMail,
        ReadAnswer::Missing => Skip::Missing,
        ReadAnswer::TooLong => Skip::TooLong,
        ReadAnswer::Mail | ReadAnswer::Body(_) => return Ok(()),
    };
    let path = path.copy()?;
    skips.push((path, skip))?;
    Ok(())
}
