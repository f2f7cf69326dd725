//! The index of a row, for `answers`: the mails of its lines `file` come in their order, and its lines `tags` set the
//! tags of messages.

use nm_base::{Facts, Many};
use nm_commit::{Change, Commit};
use nm_extract::{ExtractError, extract};
use nm_shared::Shared;
use nm_state::Snapshot;
use rows::{Row, RowError, RowLine, cut, id_of, path_of, tags_of};
use std::alloc::Global;

/// All that the lines say is one commit.
pub fn index_of(alloc: Global, row: &Row<'_>) -> Result<Snapshot, RowError> {
    let changes = changes_of(alloc, row)?;
    let now = Snapshot::empty(alloc);
    if changes.is_empty() {
        return Ok(now);
    }
    after(&now, &Commit { changes })
}

fn changes_of(alloc: Global, row: &Row<'_>) -> Result<Many<Change>, RowError> {
    let mut changes = Many::new(alloc);
    'lines: for line in row.lines.as_slice() {
        push_change(alloc, &mut changes, line)?;
    }
    Ok(changes)
}

fn push_change(
    alloc: Global,
    changes: &mut Many<Change>,
    line: &RowLine<'_>,
) -> Result<(), RowError> {
    if line.mark == b"file".as_slice() {
        return push_file(alloc, changes, line.bytes.as_slice());
    }
    if line.mark == b"tags".as_slice() {
        return push_tags(alloc, changes, line.bytes.as_slice());
    }
    Ok(())
}

/// The path of a file, and its bytes after a blank.
fn push_file(alloc: Global, changes: &mut Many<Change>, line: &[u8]) -> Result<(), RowError> {
    let (path, bytes) = cut(line, b' ');
    let path = path_of(alloc, path)?;
    let facts = facts_of(alloc, bytes)?;
    Ok(changes.push(Change::Add { path, facts })?)
}

fn facts_of(alloc: Global, bytes: &[u8]) -> Result<Shared<Facts>, RowError> {
    match extract(alloc, bytes) {
        Ok(facts) => Ok(Shared::new(alloc, facts)?),
        Err(ExtractError::NotMail) => Err(RowError::Broken("no mail where the row has one")),
        Err(ExtractError::NoMemory) => Err(RowError::NoMemory),
    }
}

/// The id of a message, and its tags after it.
fn push_tags(alloc: Global, changes: &mut Many<Change>, line: &[u8]) -> Result<(), RowError> {
    let (id, words) = cut(line, b' ');
    let id = id_of(alloc, id)?;
    let tags = tags_of(alloc, words)?;
    Ok(changes.push(Change::SetTags { id, tags })?)
}

fn after(now: &Snapshot, commit: &Commit) -> Result<Snapshot, RowError> {
    if !now.fits(commit)? {
        return Err(RowError::Broken("a line does not fit those before it"));
    }
    if !now.has_numbers(commit) {
        return Err(RowError::Broken("the numbers are used up"));
    }
    Ok(now.apply(commit)?)
}
