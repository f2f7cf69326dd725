//! Rows on the header of a mail: its fields, and what comes after it, for `answers`.

use crate::question::Question;
use crate::shown::{Shown, push_lines, show_each};
use nm_base::NoMemory;
use nm_header::{HeaderField, HeaderList, fields};
use rows::{Lines, RowError};

/// What a row asks of a header.
#[derive(Clone, Copy)]
pub enum OfHeader {
    Fields,
    Body,
    /// The fields of one name.
    Texts,
    /// The first field of one name.
    FirstText,
}

pub fn push(kind: OfHeader, question: &Question<'_>, lines: &mut Lines) -> Result<(), RowError> {
    match fields(question.alloc, question.input()) {
        Ok(header) => push_header(kind, question, &header, lines),
        Err(NoMemory) => Err(RowError::NoMemory),
    }
}

fn push_header(
    kind: OfHeader,
    question: &Question<'_>,
    header: &HeaderList,
    lines: &mut Lines,
) -> Result<(), RowError> {
    match kind {
        OfHeader::Fields => push_fields(header, lines),
        OfHeader::Body => push_body(question.input(), header.rest, lines),
        OfHeader::Texts => push_texts(question, header, lines),
        OfHeader::FirstText => push_first(question, header, lines),
    }
}

fn push_fields(header: &HeaderList, lines: &mut Lines) -> Result<(), RowError> {
    push_lines(header.list.as_slice(), b"", lines);
    Ok(())
}

/// `NAME: BODY`
impl Shown for HeaderField {
    fn push(&self, lines: &mut Lines) {
        lines.push(self.name.as_bytes());
        lines.push(b":");
        lines.push_after_blank(self.body.as_slice());
    }
}

/// What comes after the header.
fn push_body(mail: &[u8], rest: usize, lines: &mut Lines) -> Result<(), RowError> {
    let Some(body) = mail.get(rest..) else {
        return Err(RowError::Broken("the header ends after the mail"));
    };
    lines.line(body);
    Ok(())
}

fn push_texts(
    question: &Question<'_>,
    header: &HeaderList,
    lines: &mut Lines,
) -> Result<(), RowError> {
    let name = question.asked()?;
    show_each(header.texts(question.alloc, name), b"", lines)
}

/// Whether a field of the name is there, and its text.
fn push_first(
    question: &Question<'_>,
    header: &HeaderList,
    lines: &mut Lines,
) -> Result<(), RowError> {
    let name = question.asked()?;
    lines.line(if header.has(name) {
        b"it stands"
    } else {
        b"there is none"
    });
    match header.first_text(question.alloc, name) {
        Ok(text) => push_filled(text.as_bytes(), lines),
        Err(NoMemory) => Err(RowError::NoMemory),
    }
}

/// A line of the text, where it has some.
fn push_filled(text: &[u8], lines: &mut Lines) -> Result<(), RowError> {
    if !text.is_empty() {
        lines.line(text);
    }
    Ok(())
}
