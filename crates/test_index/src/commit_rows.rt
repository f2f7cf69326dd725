//! Rows on commits as bytes, for `answers`: what they say, one line a commit, or the place of the first byte that no
//! commit has there.

ghost use Rattle.std.specs.Prelude.{◌≡◌};
ghost use Rattle.nm_record.specs.CommitGrammar.{commit_grammar};

use crate::names::{is_item, push_tags};
use nm_base::{Facts, Field, FieldWords, Mailbox, Marks, MessageId, Text, WordList};
use nm_codec::ReadError;
use nm_commit::{Change, Commit};
use nm_record::{commit_bytes, read_commit};
use rows::{Lines, Row, RowError};
use std::alloc::Global;

/// A line for each line `|`.
pub fn commits(alloc: Global, row: &Row<'_>) -> Result<Vec<u8>, RowError> {
    let mut lines = Lines::new(alloc);
    'commits: for line in row.lines.as_slice() {
        if is_item(line) {
            lines.begin();
            push_read(alloc, &mut lines, line.bytes.as_slice());
        }
    }
    lines.into_bytes()
}

fn push_read(alloc: Global, lines: &mut Lines, bytes: &[u8]) {
    match read_commit(alloc, bytes) {
        Ok(commit) => push_spelled(alloc, lines, &commit, bytes),
        Err(ReadError::Bad { at }) => push_bad(lines, at),
        Err(ReadError::NoMemory) => lines.push(b"no memory"),
    }
}

fn push_bad(lines: &mut Lines, at: u64) {
    lines.push(b"bad at ");
    lines.push_number(at);
}

fn push_spelled(alloc: Global, lines: &mut Lines, commit: &Commit, bytes: &[u8])
    requires { bytes.now ≡ commit_grammar.bytes commit.now }
{
    push_commit(lines, commit);
    if !is_spelled(alloc, commit, bytes) {
        lines.push(b", spelled in another way");
    }
}

/// Whether the commit that was read is written by these bytes again.
fn is_spelled(alloc: Global, commit: &Commit, bytes: &[u8]) -> bool
    requires { bytes.now ≡ commit_grammar.bytes commit.now }
{
    if bytes.len() > u32::MAX as usize {
        return false;
    }
    match commit_bytes(alloc, commit) {
        Ok(written) => written.as_slice() == bytes,
        Err(_) => false,
    }
}

fn push_commit(lines: &mut Lines, commit: &Commit) {
    let mut blank = b"".as_slice();
    'changes: for change in commit.changes.as_slice() {
        lines.push(blank);
        push_change(lines, change);
        blank = b"; ";
    }
}

fn push_change(lines: &mut Lines, change: &Change) {
    match change {
        Change::Add { path, facts } => {
            lines.push(b"add ");
            lines.push(path.text().as_bytes());
            push_facts(lines, facts.get());
        }
        Change::Drop { path } => {
            lines.push(b"drop ");
            lines.push(path.text().as_bytes());
        }
        Change::Move { from, to } => {
            lines.push(b"move ");
            lines.push(from.text().as_bytes());
            lines.push(b" to ");
            lines.push(to.text().as_bytes());
        }
        Change::SetTags { id, tags } => {
            lines.push(b"tags of ");
            lines.push(id.text().as_bytes());
            lines.push(b":");
            push_tags(lines, tags);
        }
    }
}

/// The facts in their order; an empty list is left out.
fn push_facts(lines: &mut Lines, facts: &Facts) {
    lines.push(b", id ");
    lines.push(facts.id.text().as_bytes());
    push_links(lines, facts.links.as_slice());
    push_date(lines, facts.date);
    push_mailboxes(lines, b", from", facts.from.as_slice());
    push_mailboxes(lines, b", to", facts.to.as_slice());
    lines.push(b", subject");
    lines.push_after_blank(facts.subject.as_bytes());
    push_lists(lines, facts.lists.as_slice());
    push_types(lines, facts.types.as_slice());
    push_marks(lines, facts.marks);
}

fn push_links(lines: &mut Lines, ids: &[MessageId]) {
    'links: for id in ids {
        lines.push(b", link ");
        lines.push(id.text().as_bytes());
    }
}

fn push_date(lines: &mut Lines, date: i64) {
    lines.push(b", date ");
    if date < 0 {
        lines.push(b"-");
    }
    lines.push_number(date.unsigned_abs());
}

fn push_mailboxes(lines: &mut Lines, front: &[u8], mailboxes: &[Mailbox]) {
    'mailboxes: for mailbox in mailboxes {
        lines.push(front);
        lines.push_after_blank(mailbox.name.as_bytes());
        lines.push(b" <");
        lines.push(mailbox.address.as_bytes());
        lines.push(b">");
    }
}

fn push_lists(lines: &mut Lines, lists: &[FieldWords]) {
    'lists: for list in lists {
        lines.push(b", words of ");
        lines.push(field_name(list.field));
        lines.push(b":");
        push_words(lines, &list.words);
    }
}

fn push_words(lines: &mut Lines, list: &WordList) {
    let mut words = list.words();
    'words: while let Some(word) = words.take_first() {
        lines.push_after_blank(word);
    }
}

fn field_name(field: Field) -> &'static [u8] {
    match field {
        Field::From => b"from",
        Field::To => b"to",
        Field::Subject => b"subject",
        Field::Body => b"body",
        Field::Attachment => b"attachment",
    }
}

fn push_types(lines: &mut Lines, types: &[Text]) {
    'types: for kind in types {
        lines.push(b", type ");
        lines.push(kind.as_bytes());
    }
}

fn push_marks(lines: &mut Lines, marks: Marks) {
    if marks.attachment {
        lines.push(b", attachment");
    }
    if marks.signed {
        lines.push(b", signed");
    }
    if marks.encrypted {
        lines.push(b", encrypted");
    }
}
