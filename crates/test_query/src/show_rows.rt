//! Rows on what `show` prints, for `reply_rows`.

use crate::values::query_of;
use nm_base::{Copies, MailPath, Many, MessageId, ShowAsk};
use nm_maildir::{Given, ReadAnswer};
use nm_render::{ShowError, lead_paths, show_text, shown_ids};
use nm_state::Snapshot;
use rows::{Lines, Row, RowError, RowLine, cut, named};
use std::alloc::Global;

/// What a line says of a read.
#[derive(Clone, Copy)]
enum Read {
    Body,
    Missing,
    Long,
}

const READS: [(&[u8], Read); 3] = [
    (b"body", Read::Body),
    (b"missing", Read::Missing),
    (b"long", Read::Long),
];

/// What is shown, over what the row says of the files, or why nothing is.
pub fn push_shown(
    alloc: Global,
    lines: &mut Lines,
    row: &Row<'_>,
    index: &Snapshot,
    ask: &ShowAsk,
) -> Result<(), RowError> {
    let query = query_of(alloc, ask.query.as_str())?;
    match shown_ids(alloc, index, ask, query.get(), 0) {
        Ok(ids) => push_messages(alloc, lines, row, index, ask, ids.as_slice()),
        Err(error) => push_error(lines, &error),
    }
}

fn push_messages(
    alloc: Global,
    lines: &mut Lines,
    row: &Row<'_>,
    index: &Snapshot,
    ask: &ShowAsk,
    ids: &[MessageId],
) -> Result<(), RowError> {
    let paths = lead_paths(alloc, index, ids)?;
    let given = given_of(alloc, row, paths.as_slice())?;
    match show_text(alloc, index, ask, ids, given.as_slice()) {
        Ok(text) => lines.text(text.as_slice()),
        Err(error) => return push_error(lines, &error),
    }
    Ok(())
}

fn push_error(lines: &mut Lines, error: &ShowError) -> Result<(), RowError> {
    match error {
        ShowError::NotOne { found } => {
            lines.line(b"not one: ");
            lines.push_number(*found);
        }
        ShowError::Gone { path } => lines.line_of(b"gone: ", path.text().as_bytes()),
        ShowError::NoMemory => return Err(RowError::NoMemory),
    }
    Ok(())
}

/// The reads of these paths.
fn given_of(alloc: Global, row: &Row<'_>, paths: &[MailPath]) -> Result<Many<Given>, RowError> {
    let mut given = Many::new(alloc);
    'paths: for path in paths {
        push_given(alloc, row, &mut given, path)?;
    }
    Ok(given)
}

fn push_given(
    alloc: Global,
    row: &Row<'_>,
    given: &mut Many<Given>,
    path: &MailPath,
) -> Result<(), RowError> {
    let answer = answer_of(alloc, row, path)?;
    let path = path.copy()?;
    Ok(given.push(Given::Read { path, answer })?)
}

/// What a read of the path finds, by the line that begins with it.
fn answer_of(alloc: Global, row: &Row<'_>, path: &MailPath) -> Result<ReadAnswer, RowError> {
    'lines: for line in row.lines.as_slice() {
        if let Some(bytes) = behind(line, path) {
            return told(alloc, named(&READS, line.mark)?, bytes);
        }
    }
    Err(RowError::Broken("no answer to a read"))
}

/// What comes after the path in a line that begins with it, but for that of the file itself.
fn behind<'a>(line: &'a RowLine<'_>, path: &MailPath) -> Option<&'a [u8]> {
    let (front, bytes) = cut(line.bytes.as_slice(), b' ');
    if line.mark == b"file".as_slice() || front != path.text().as_bytes() {
        return None;
    }
    Some(bytes)
}

fn told(alloc: Global, read: Read, bytes: &[u8]) -> Result<ReadAnswer, RowError> {
    match read {
        Read::Body => Ok(ReadAnswer::Body(Many::from_slice(alloc, bytes)?)),
        Read::Missing => Ok(ReadAnswer::Missing),
        Read::Long => Ok(ReadAnswer::TooLong),
    }
}
