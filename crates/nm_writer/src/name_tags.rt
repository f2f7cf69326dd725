//! The tags that the names of files give the messages of a commit; each commit of a `new` ends with them. While the caller finds
//! them, workers put the changes into bytes.

ghost use Rattle.std.specs.Prelude.{◌≡◌, ◌++◌, IfOk, IfSome, OnOk, map};
ghost use Rattle.std.specs.List.{flat_map};
ghost use Rattle.nm_commit.specs.Files.{Fits};
ghost use Rattle.nm_flags.specs.FlagTags.{tags_by_names};
ghost use Rattle.nm_model_index.specs.Index.{committed};
ghost use Rattle.nm_model_answer.specs.View.{tags_of};
ghost use Rattle.nm_model_plan.specs.NameTags.{named_tags, set_tags, with_names};
ghost use Rattle.nm_record.specs.Commits.{change_bytes};
ghost use Rattle.nm_writer.specs.NameTags.{IsFollowed, set_of};

use nm_base::{Copies, MailPath, Many, MessageId, NoMemory, Tags};
use nm_changes::{encode_beside, encode_rest, message_paths};
use nm_commit::{Change, Commit};
use nm_eval::by_numbers;
use nm_flags::tags_from_names;
use nm_record::commit_len;
use nm_state::Snapshot;
use std::alloc::Global;
use std::sync::Wait;
use std::thread::Threads;

/// A commit, the snapshot after it, and the bytes of its changes, where workers have put them together.
#[derive(Drop)]
pub(crate) struct Named {
    pub(crate) commit: Commit,
    pub(crate) next: Snapshot,
    pub(crate) pieces: Option<Many<Many<u8>>>,
}

/// The tags that follow the changes of a commit, and the snapshot after both.
#[derive(Drop)]
pub(crate) struct Followed {
    pub(crate) sets: Many<(MessageId, Tags)>,
    pub(crate) next: Snapshot,
}

/// A commit of the changes, and after them of the tags that the messages with these ids then have by the names of their files,
/// where they have others.
pub(crate) fn with_names<R: Threads + Wait + Sync>(
    rt: &R,
    alloc: Global,
    workers: u32,
    shown: &Snapshot,
    changes: Many<Change>,
    ids: &[MessageId],
) -> Result<Named, NoMemory>
    requires fits { Fits shown.now.files (record { changes = changes }) }
    ensures commit { IfOk result (λ named. named.commit.changes ≡ with_names shown.now changes ids.now) }
    ensures next { IfOk result (λ named. named.next ≡ committed shown.now named.commit) }
    ensures pieces { IfOk result (λ named. IfSome named.pieces (λ pieces. pieces ≡ map change_bytes named.commit.changes)) }
{
    let files = Commit { changes };
    let (followed, pieces) = encode_beside(
        rt,
        alloc,
        workers,
        commit_len(&files),
        &files.changes,
        &mut || -> Result<Followed, NoMemory>
            requires { Fits shown.now.files files }
            ensures { IfOk result (IsFollowed shown.entry.now files ids.entry.now) }
        { follow(alloc, shown, &files, ids) },
    );
    let Followed { sets, next } = followed?;
    let pieces = pieces?;
    let commit = with_sets(files, sets)?;
    let pieces = match pieces {
        Some(pieces) => Some(encode_rest(alloc, commit.changes.as_slice(), pieces)?),
        None => None,
    };
    Ok(Named {
        commit,
        next,
        pieces,
    })
}

/// The tags that follow the changes of a commit, and the snapshot after both. It is made by one thread, since the others have
/// something to do.
fn follow(
    alloc: Global,
    shown: &Snapshot,
    files: &Commit,
    ids: &[MessageId],
) -> Result<Followed, NoMemory>
    requires { Fits shown.now.files files.now }
    ensures { IfOk result (IsFollowed shown.now files.now ids.now) }
{
    let after = applied(shown, files)?;
    let ids = by_numbers(alloc, &after, ids)?;
    let sets = sets_by_names(alloc, &after, ids.as_slice())?;
    let next = after.with_tags(&sets)?;
    Ok(Followed { sets, next })
}

/// The snapshot after a commit that fits, whatever limit it passes. Numbers that would pass 2^63 are reported as no
/// memory.
fn applied(shown: &Snapshot, commit: &Commit) -> Result<Snapshot, NoMemory>
    requires fits { Fits shown.now.files commit.now }
    ensures { IfOk result (λ next. next ≡ committed shown.now commit.now) }
{
    if !shown.has_numbers(commit) {
        return Err(NoMemory);
    }
    shown.apply(commit)
}

/// The tags of the messages by the names of their files, where they have others.
fn sets_by_names(
    alloc: Global,
    after: &Snapshot,
    ids: &[MessageId],
) -> Result<Many<(MessageId, Tags)>, NoMemory>
    ensures { IfOk result (λ sets. map set_of sets ≡ flat_map (λ id. set_tags id (tags_of after.now id) (named_tags after.now id)) ids.now) }
{
    let mut sets = Many::new(alloc);
    'ids: for id in ids {
        add_by_names(alloc, after, id, &mut sets)?;
    }
    Ok(sets)
}

fn add_by_names(
    alloc: Global,
    after: &Snapshot,
    id: &MessageId,
    sets: &mut Many<(MessageId, Tags)>,
) -> Result<(), NoMemory>
    ensures { OnOk result (map set_of sets.new ≡ map set_of sets.old ++ set_tags id.now (tags_of after.now id.now) (named_tags after.now id.now)) }
{
    let paths = message_paths(alloc, after, id)?;
    match after.tags(id) {
        Some(tags) => add_set(alloc, id, tags, &paths, sets),
        None => add_set(alloc, id, &Tags::new(alloc), &paths, sets),
    }
}

fn add_set(
    alloc: Global,
    id: &MessageId,
    tags: &Tags,
    paths: &Many<MailPath>,
    sets: &mut Many<(MessageId, Tags)>,
) -> Result<(), NoMemory>
    ensures { OnOk result (map set_of sets.new ≡ map set_of sets.old ++ set_tags id.now tags.now (tags_by_names tags.now paths.now)) }
{
    let named = tags_from_names(alloc, tags, paths)?;
    if *tags == named {
        return Ok(());
    }
    sets.push((id.copy()?, named))
}

/// The commit, and after it the tags that are set.
fn with_sets(files: Commit, sets: Many<(MessageId, Tags)>) -> Result<Commit, NoMemory>
    ensures { IfOk result (λ commit. commit.changes ≡ files.changes ++ map set_of sets) }
{
    let Commit { mut changes } = files;
    'sets: for (id, tags) in sets.into_vec() {
        changes.push(Change::SetTags { id, tags })?;
    }
    Ok(Commit { changes })
}
