//! Rows on snapshots, for `answers`: what one answers after some commits, or before the last of them.

use crate::names::{is_item, push_ids, push_tags};
use crate::store::Store;
use nm_base::{LinkRow, MessageId};
use nm_state::{MessageFiles, Snapshot};
use rows::{Lines, Row, RowError, cut, named};
use std::alloc::Global;

/// What is asked of a snapshot.
#[derive(Clone, Copy)]
enum Asked {
    Threads,
    Kept,
    Messages,
    Tags,
    Files,
    Paths,
    Revision,
}

const ASKED: [(&[u8], Asked); 7] = [
    (b"threads", Asked::Threads),
    (b"kept", Asked::Kept),
    (b"messages", Asked::Messages),
    (b"tags", Asked::Tags),
    (b"files", Asked::Files),
    (b"paths", Asked::Paths),
    (b"revision", Asked::Revision),
];

/// What the snapshot after the commits of the lines `|` answers to what comes after `?`, or why one of them was not made.
pub fn answered(alloc: Global, row: &Row<'_>) -> Result<Vec<u8>, RowError> {
    let mut store = Store::new(alloc);
    commit_all(&mut store, row);
    told_of(&store, row)
}

/// Makes the commits of the lines `|`.
fn commit_all(store: &mut Store, row: &Row<'_>) {
    'commits: for line in row.lines.as_slice() {
        if is_item(line) {
            store.commit(line.bytes.as_slice());
        }
    }
}

fn told_of(store: &Store, row: &Row<'_>) -> Result<Vec<u8>, RowError> {
    match store.fault {
        None => told_by(store, row),
        Some(RowError::Broken(why)) => Ok(why.as_bytes().to_vec(store.alloc)?),
        Some(RowError::NoMemory) => Err(RowError::NoMemory),
    }
}

fn told_by(store: &Store, row: &Row<'_>) -> Result<Vec<u8>, RowError> {
    let asked = row.text(store.alloc, b"?")?;
    let (what, before) = cut(asked.as_slice(), b' ');
    if before.is_empty() {
        told(store.alloc, &store.now, what)
    } else {
        told(store.alloc, &store.before, what)
    }
}

/// What the snapshot answers to the word.
pub fn told(alloc: Global, snapshot: &Snapshot, what: &[u8]) -> Result<Vec<u8>, RowError> {
    let asked = named(&ASKED, what)?;
    let mut lines = Lines::new(alloc);
    push_told(&mut lines, snapshot, asked);
    lines.into_bytes()
}

fn push_told(lines: &mut Lines, snapshot: &Snapshot, asked: Asked) {
    match asked {
        Asked::Threads => push_threads(lines, snapshot),
        Asked::Kept => push_kept(lines, snapshot),
        Asked::Messages => push_messages(lines, snapshot),
        Asked::Tags => push_all_tags(lines, snapshot),
        Asked::Files => push_files(lines, snapshot),
        Asked::Paths => push_paths(lines, snapshot),
        Asked::Revision => push_revision(lines, snapshot),
    }
}

/// A line for each id with a number, by numbers: the id, its number, the name of its thread.
fn push_threads(lines: &mut Lines, snapshot: &Snapshot) {
    match snapshot.to_base() {
        Ok(base) => push_entries(lines, snapshot, base.entries.as_slice()),
        Err(_) => lines.line(b"no memory"),
    }
}

fn push_entries(lines: &mut Lines, snapshot: &Snapshot, entries: &[(MessageId, u64)]) {
    'entries: for entry in entries {
        lines.line(entry.0.text().as_bytes());
        push_number(lines, Some(entry.1));
        push_number(lines, snapshot.thread(&entry.0));
    }
}

fn push_number(lines: &mut Lines, number: Option<u64>) {
    if let Some(number) = number {
        lines.push(b" ");
        lines.push_number(number);
    }
}

/// A line for each kept row: the id, and those that it links to.
fn push_kept(lines: &mut Lines, snapshot: &Snapshot) {
    match snapshot.to_base() {
        Ok(base) => push_rows(lines, base.kept.as_slice()),
        Err(_) => lines.line(b"no memory"),
    }
}

fn push_rows(lines: &mut Lines, rows: &[LinkRow]) {
    'rows: for row in rows {
        lines.line(row.id.text().as_bytes());
        push_ids(lines, row.links.as_slice());
    }
}

/// A line for each message, by numbers: the id, and its paths.
fn push_messages(lines: &mut Lines, snapshot: &Snapshot) {
    'messages: for (id, files) in snapshot.messages() {
        lines.line(id.text().as_bytes());
        push_paths_of(lines, files);
    }
}

fn push_paths_of(lines: &mut Lines, files: MessageFiles<'_>) {
    'files: for (path, _) in files {
        lines.push_after_blank(path.text().as_bytes());
    }
}

/// A line for each message, by numbers: the id, and its tags.
fn push_all_tags(lines: &mut Lines, snapshot: &Snapshot) {
    'messages: for (id, _) in snapshot.messages() {
        lines.line(id.text().as_bytes());
        push_tags_of(lines, snapshot, id);
    }
}

fn push_tags_of(lines: &mut Lines, snapshot: &Snapshot, id: &MessageId) {
    if let Some(tags) = snapshot.tags(id) {
        push_tags(lines, tags);
    }
}

/// A line for each file, by arrival: its path, and its id.
fn push_files(lines: &mut Lines, snapshot: &Snapshot) {
    'files: for (path, facts) in snapshot.files_in_order() {
        lines.line(path.text().as_bytes());
        lines.push_after_blank(facts.id.text().as_bytes());
    }
}

fn push_paths(lines: &mut Lines, snapshot: &Snapshot) {
    'paths: for path in snapshot.paths() {
        lines.line(path.text().as_bytes());
    }
}

fn push_revision(lines: &mut Lines, snapshot: &Snapshot) {
    lines.begin();
    lines.push_number(snapshot.revision());
}
