//! Rows on whole mails: their facts, or that they are no mail, and the texts that a reader is shown, for `answers`.

use crate::question::Question;
use crate::shown::{Shown, push_line, push_lines, show_each};
use nm_base::{Copies, Facts, Field, FieldWords, Marks, NoMemory};
use nm_extract::{ExtractError, bodies, extract};
use rows::{Lines, RowError};

/// Which facts of a mail a row asks.
#[derive(Clone, Copy)]
pub enum OfMail {
    All,
    Links,
    Date,
    Mailboxes,
    Words,
    WordLists,
}

pub fn push(kind: OfMail, question: &Question<'_>, lines: &mut Lines) -> Result<(), RowError> {
    push_extracted(kind, &extract(question.alloc, question.input()), lines)
}

fn push_extracted(
    kind: OfMail,
    extracted: &Result<Facts, ExtractError>,
    lines: &mut Lines,
) -> Result<(), RowError> {
    match extracted {
        Ok(facts) => push_copied(kind, &facts.copy(), lines),
        Err(ExtractError::NotMail) => {
            lines.line(b"not mail");
            Ok(())
        }
        Err(ExtractError::NoMemory) => Err(RowError::NoMemory),
    }
}

/// The facts are shown from a copy, which equals its source.
fn push_copied(
    kind: OfMail,
    copied: &Result<Facts, NoMemory>,
    lines: &mut Lines,
) -> Result<(), RowError> {
    match copied {
        Ok(facts) => {
            push_facts(kind, facts, lines);
            Ok(())
        }
        Err(NoMemory) => Err(RowError::NoMemory),
    }
}

fn push_facts(kind: OfMail, facts: &Facts, lines: &mut Lines) {
    match kind {
        OfMail::All => push_all(facts, lines),
        OfMail::Links => push_line(facts.links.as_slice(), b"links", lines),
        OfMail::Date => push_date(facts.date, lines),
        OfMail::Mailboxes => push_from_to_subject(facts, lines),
        OfMail::Words => push_parts(facts, lines),
        OfMail::WordLists => push_lines(facts.lists.as_slice(), b"words ", lines),
    }
}

fn push_all(facts: &Facts, lines: &mut Lines) {
    lines.line_of(b"id ", facts.id.text().as_bytes());
    push_date(facts.date, lines);
    push_line(facts.links.as_slice(), b"links", lines);
    push_from_to_subject(facts, lines);
    push_parts(facts, lines);
}

fn push_date(date: i64, lines: &mut Lines) {
    lines.line(b"date ");
    if date < 0 {
        lines.push(b"-");
    }
    lines.push_number(date.unsigned_abs());
}

/// A line for each who wrote it, each to whom it goes, and the subject.
fn push_from_to_subject(facts: &Facts, lines: &mut Lines) {
    push_lines(facts.from.as_slice(), b"from ", lines);
    push_lines(facts.to.as_slice(), b"to ", lines);
    lines.line(b"subject");
    lines.push_after_blank(facts.subject.as_bytes());
}

/// What comes of the parts: the lists of words, the types and the marks.
fn push_parts(facts: &Facts, lines: &mut Lines) {
    push_lines(facts.lists.as_slice(), b"words ", lines);
    push_line(facts.types.as_slice(), b"types", lines);
    push_marks(facts.marks, lines);
}

/// The words after the field that they belong to.
impl Shown for FieldWords {
    fn push(&self, lines: &mut Lines) {
        lines.push(field_name(self.field));
        if !self.words.is_empty() {
            lines.push(b" ");
        }
        self.words.push(lines);
    }
}

fn field_name(field: Field) -> &'static [u8] {
    match field {
        Field::From => b"from:",
        Field::To => b"to:",
        Field::Subject => b"subject:",
        Field::Body => b"body:",
        Field::Attachment => b"attachment:",
    }
}

fn push_marks(marks: Marks, lines: &mut Lines) {
    lines.line(b"marks");
    push_mark(marks.attachment, b" attachment", lines);
    push_mark(marks.signed, b" signed", lines);
    push_mark(marks.encrypted, b" encrypted", lines);
}

fn push_mark(is_set: bool, name: &[u8], lines: &mut Lines) {
    if is_set {
        lines.push(name);
    }
}

/// A line for each text that a reader is shown.
pub fn push_texts(question: &Question<'_>, lines: &mut Lines) -> Result<(), RowError> {
    let texts = bodies(question.alloc, question.input());
    show_each(texts, b"text: ", lines)
}
