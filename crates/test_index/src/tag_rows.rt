//! Rows on tags, for `answers`: what operations leave of them, and how they are written.

use crate::names::is_item;
use nm_base::{Tag, Tags};
use nm_tags::{apply_ops, changes_of, encode_tag};
use rows::{Lines, Row, RowError, tag_of, tags_of, text_of};
use std::alloc::Global;

/// The tags after `?` after the operations of each line `|`, or from none after those of each line `clear`.
pub fn operations(alloc: Global, row: &Row<'_>) -> Result<Vec<u8>, RowError> {
    let before = row.text(alloc, b"?")?;
    let tags = tags_of(alloc, before.as_slice())?;
    after_each(alloc, &tags, row)
}

fn after_each(alloc: Global, tags: &Tags, row: &Row<'_>) -> Result<Vec<u8>, RowError> {
    let mut lines = Lines::new(alloc);
    'lines: for line in row.lines.as_slice() {
        let clear = line.mark == b"clear".as_slice();
        if clear || is_item(line) {
            push_after(alloc, &mut lines, tags, clear, line.bytes.as_slice());
        }
    }
    lines.into_bytes()
}

fn push_after(alloc: Global, lines: &mut Lines, tags: &Tags, clear: bool, ops: &[u8]) {
    match after(alloc, tags, clear, ops) {
        Ok(after) => push_joined(lines, &after),
        Err(_) => lines.line(b"no operations"),
    }
}

/// The tags after the operations of a text, which blanks part: a `+` or a `-` and a tag.
fn after(alloc: Global, tags: &Tags, clear: bool, ops: &[u8]) -> Result<Tags, RowError> {
    match changes_of(alloc, text_of(ops)?)? {
        Some((ops, _)) => Ok(apply_ops(alloc, tags, clear, &ops)?),
        None => Err(RowError::Broken("no operations")),
    }
}

/// A line of the tags with blanks between them.
fn push_joined(lines: &mut Lines, tags: &Tags) {
    let mut blank = b"".as_slice();
    lines.begin();
    'tags: for tag in tags.iter() {
        lines.push(blank);
        lines.push(tag.text().as_bytes());
        blank = b" ";
    }
}

/// How the tag of each line `|` is written.
pub fn written(alloc: Global, row: &Row<'_>) -> Result<Vec<u8>, RowError> {
    let mut lines = Lines::new(alloc);
    'tags: for line in row.lines.as_slice() {
        if is_item(line) {
            push_named(alloc, &mut lines, line.bytes.as_slice());
        }
    }
    lines.into_bytes()
}

fn push_named(alloc: Global, lines: &mut Lines, name: &[u8]) {
    match tag_of(alloc, name) {
        Ok(tag) => push_written(alloc, lines, &tag),
        Err(_) => lines.line(b"no tag"),
    }
}

fn push_written(alloc: Global, lines: &mut Lines, tag: &Tag) {
    match encode_tag(alloc, tag) {
        Ok(text) => lines.line(text.as_bytes()),
        Err(_) => lines.line(b"no memory"),
    }
}
