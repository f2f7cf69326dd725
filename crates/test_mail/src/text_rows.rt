//! Rows on what bytes and texts are read as: what is encoded, and the ids, mailboxes, words and types in a text, for `answers`.

use crate::question::Question;
use crate::shown::{Shown, push_lines, show, show_each};
use nm_decode::{base64_bytes, charset_text, encoded_words, quoted_printable};
use nm_header::{ids, mailboxes, plain};
use nm_mime::{ContentType, Param, content_type};
use nm_words::words;
use rows::{Lines, RowError};

/// How bytes are decoded.
#[derive(Clone, Copy)]
pub enum OfBytes {
    QuotedPrintable,
    Base64,
    Charset,
}

/// What is read in a text.
#[derive(Clone, Copy)]
pub enum OfText {
    Ids,
    Mailboxes,
    WithoutComments,
    EncodedWords,
    Words,
    ContentType,
}

pub fn push_decoded(
    kind: OfBytes,
    question: &Question<'_>,
    lines: &mut Lines,
) -> Result<(), RowError> {
    let (alloc, bytes) = (question.alloc, question.input());
    match kind {
        OfBytes::QuotedPrintable => show(quoted_printable(alloc, bytes), lines),
        OfBytes::Base64 => show(base64_bytes(alloc, bytes), lines),
        OfBytes::Charset => show(charset_text(alloc, bytes, question.asked()?), lines),
    }
}

pub fn push(kind: OfText, question: &Question<'_>, lines: &mut Lines) -> Result<(), RowError> {
    let (alloc, text) = (question.alloc, question.text()?);
    match kind {
        OfText::Ids => show_each(ids(alloc, text), b"", lines),
        OfText::Mailboxes => show_each(mailboxes(alloc, text), b"", lines),
        OfText::WithoutComments => show(plain(alloc, text), lines),
        OfText::EncodedWords => show(encoded_words(alloc, text), lines),
        OfText::Words => show(words(alloc, text), lines),
        OfText::ContentType => show(content_type(alloc, text), lines),
    }
}

/// The type, and a line for each parameter.
impl Shown for ContentType {
    fn push(&self, lines: &mut Lines) {
        lines.push(self.kind.as_bytes());
        push_lines(self.params.as_slice(), b"", lines);
    }
}

/// `NAME=VALUE`
impl Shown for Param {
    fn push(&self, lines: &mut Lines) {
        lines.push(self.name.as_bytes());
        lines.push(b"=");
        lines.push(self.value.as_bytes());
    }
}
