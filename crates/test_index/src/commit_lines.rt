//! Commits as lines, for `store` and `room_rows`: changes parted by `;` or LF, each a verb and its words. A line is put into the bytes of a
//! commit, of which the commit is read.

use nm_base::Text;
use nm_commit::Commit;
use nm_record::read_commit;
use rows::{Lines, RowError, named, words_of};
use std::alloc::Global;

/// The kinds of changes in bytes.
const ADD: u8 = 1;

const DROP: u8 = 2;

const MOVE: u8 = 3;

const TAGS: u8 = 4;

const VERBS: [(&[u8], u8); 4] = [
    (b"add", ADD),
    (b"drop", DROP),
    (b"move", MOVE),
    (b"tags", TAGS),
];

/// A mail without date, mailboxes, subject, words, types and marks.
const BARE: [u8; 29] = [0; 29];

/// The commit of a line.
pub fn commit_of(alloc: Global, line: &[u8]) -> Result<Commit, RowError> {
    let bytes = bytes_of(alloc, line)?;
    match read_commit(alloc, bytes.as_slice()) {
        Ok(commit) => Ok(commit),
        Err(_) => Err(RowError::Broken("no commit")),
    }
}

/// How many changes there are, and then each.
fn bytes_of(alloc: Global, line: &[u8]) -> Result<Vec<u8>, RowError> {
    let mut changes = Lines::new(alloc);
    let count = push_changes(alloc, &mut changes, line);
    let changes = changes.into_bytes()?;
    let mut bytes = Lines::new(alloc);
    bytes.push(&count.to_be_bytes());
    bytes.push(changes.as_slice());
    bytes.into_bytes()
}

fn push_changes(alloc: Global, bytes: &mut Lines, line: &[u8]) -> u32 {
    let mut count = 0u32;
    'changes: for part in line.split(|b| *b == b';' || *b == b'\n') {
        count = count.saturating_add(1);
        push_part(alloc, bytes, part);
    }
    count
}

/// What can't be read as a change has no bytes, so that the commit is none.
fn push_part(alloc: Global, bytes: &mut Lines, part: &[u8]) {
    if let Ok(words) = words_of(alloc, part) {
        push_change(bytes, words.as_slice());
    }
}

/// `add PATH ID LINK ..`, `drop PATH`, `move PATH PATH` or `tags ID TAG ..`
fn push_change(bytes: &mut Lines, words: &[Text]) {
    if let [verb, first, rest @ ..] = words {
        let kind = named(&VERBS, verb.as_bytes()).unwrap_or(0);
        bytes.push(&[kind]);
        push_text(bytes, first);
        match kind {
            ADD => push_row(bytes, rest),
            DROP => (),
            MOVE => push_all(bytes, rest),
            _ => push_list(bytes, rest),
        }
    }
}

/// An id, those that it links to, and nothing else.
fn push_row(bytes: &mut Lines, words: &[Text]) {
    if let [id, links @ ..] = words {
        push_text(bytes, id);
        push_list(bytes, links);
        bytes.push(&BARE);
    }
}

fn push_list(bytes: &mut Lines, words: &[Text]) {
    push_len(bytes, words.len());
    push_all(bytes, words);
}

fn push_all(bytes: &mut Lines, words: &[Text]) {
    'words: for word in words {
        push_text(bytes, word);
    }
}

fn push_text(bytes: &mut Lines, text: &Text) {
    let text = text.as_bytes();
    push_len(bytes, text.len());
    bytes.push(text);
}

fn push_len(bytes: &mut Lines, len: usize) {
    let len = len.min(u32::MAX as usize) as u32;
    bytes.push(&len.to_be_bytes());
}
