//! Rows on lines of tag changes, and on those of a dump, for `answers`; `reply_rows` tells changes and faults of lines too.

use nm_base::{ReadForm, TagOp};
use nm_dump::read_dump;
use nm_tags::{LineError, LineKind, TagLine, Wanted, batch_lines};
use rows::{Lines, Row, RowError, named};
use std::alloc::Global;

const FORMS: [(&[u8], ReadForm); 3] = [
    (b"auto", ReadForm::Auto),
    (b"batch-tag", ReadForm::BatchTag),
    (b"sup", ReadForm::Sup),
];

/// What the lines `|` ask for, or the first that is none; `?` is there where all tags are taken off first.
pub fn push_tag_lines(alloc: Global, lines: &mut Lines, row: &Row<'_>) -> Result<(), RowError> {
    let text = row.text(alloc, b"|")?;
    match batch_lines(alloc, text.as_slice(), row.has(b"?")) {
        Ok(read) => push_read(lines, read.as_slice()),
        Err(error) => return push_fault(lines, error),
    }
    Ok(())
}

fn push_read(lines: &mut Lines, read: &[TagLine]) {
    if read.is_empty() {
        lines.line(b"nothing");
    }
    'read: for line in read {
        push_asked(lines, line.line, line.ops.as_slice(), line.query.as_bytes());
    }
}

/// The same of the lines of a dump; `?` has its form.
pub fn push_dump_lines(alloc: Global, lines: &mut Lines, row: &Row<'_>) -> Result<(), RowError> {
    let form = form_of(alloc, row)?;
    let text = row.text(alloc, b"|")?;
    match read_dump(alloc, text.as_slice(), form) {
        Ok(read) => push_dumped(lines, read.as_slice()),
        Err(error) => return push_fault(lines, error),
    }
    Ok(())
}

fn form_of(alloc: Global, row: &Row<'_>) -> Result<ReadForm, RowError> {
    let asked = row.text(alloc, b"?")?;
    named(&FORMS, asked.as_slice())
}

fn push_dumped(lines: &mut Lines, read: &[Wanted]) {
    if read.is_empty() {
        lines.line(b"nothing");
    }
    'read: for line in read {
        push_asked(
            lines,
            line.line,
            line.ops.as_slice(),
            line.id.text().as_bytes(),
        );
    }
}

/// `NUMBER CHANGE.. for QUERY`.
fn push_asked(lines: &mut Lines, number: u32, ops: &[TagOp], query: &[u8]) {
    lines.begin();
    lines.push_number(u64::from(number));
    lines.push(b" ");
    push_ops(lines, ops);
    lines.push(b"for ");
    lines.push(query);
}

/// The changes, each with a blank after it.
pub fn push_ops(lines: &mut Lines, ops: &[TagOp]) {
    'ops: for op in ops {
        lines.push(if op.add { b"+" } else { b"-" });
        lines.push(op.tag.text().as_bytes());
        lines.push(b" ");
    }
}

/// `NUMBER KIND`.
pub fn push_fault(lines: &mut Lines, error: LineError) -> Result<(), RowError> {
    let LineError::BadLine { line, kind } = error else {
        return Err(RowError::NoMemory);
    };
    lines.begin();
    lines.push_number(u64::from(line));
    lines.push(kind_name(kind));
    Ok(())
}

fn kind_name(kind: LineKind) -> &'static [u8] {
    match kind {
        LineKind::Utf8 => b" utf8",
        LineKind::Tag => b" tag",
        LineKind::Query => b" query",
        LineKind::Form => b" form",
    }
}
