//! The kinds of row, and what each asks of the modules beside this one: `main` runs a table by it.

use crate::header_rows::{self, OfHeader};
use crate::mail_rows::{self, OfMail};
use crate::part_rows::{self, OfParts};
use crate::question::Question;
use crate::text_rows::{self, OfBytes, OfText};
use crate::value_rows::{self, Steps};
use rows::{Lines, Program, Row, RowError, named};
use std::alloc::Global;

/// The program that runs the rows on reading one mail.
pub struct Reading;

/// What the rows of a kind are on.
#[derive(Clone, Copy)]
enum Kind {
    Header(OfHeader),
    Bytes(OfBytes),
    Text(OfText),
    Parts(OfParts),
    Mail(OfMail),
    BodyTexts,
    Steps(Steps),
}

const KINDS: [(&[u8], Kind); 26] = [
    (b"fields", Kind::Header(OfHeader::Fields)),
    (b"body", Kind::Header(OfHeader::Body)),
    (b"field", Kind::Header(OfHeader::Texts)),
    (b"first field", Kind::Header(OfHeader::FirstText)),
    (b"quoted-printable", Kind::Bytes(OfBytes::QuotedPrintable)),
    (b"base64", Kind::Bytes(OfBytes::Base64)),
    (b"charset", Kind::Bytes(OfBytes::Charset)),
    (b"ids", Kind::Text(OfText::Ids)),
    (b"mailboxes", Kind::Text(OfText::Mailboxes)),
    (b"without comments", Kind::Text(OfText::WithoutComments)),
    (b"encoded words", Kind::Text(OfText::EncodedWords)),
    (b"words", Kind::Text(OfText::Words)),
    (b"content type", Kind::Text(OfText::ContentType)),
    (b"parts", Kind::Parts(OfParts::Bytes)),
    (b"fields of the parts", Kind::Parts(OfParts::Fields)),
    (b"last part", Kind::Parts(OfParts::Last)),
    (b"mail", Kind::Mail(OfMail::All)),
    (b"links of a mail", Kind::Mail(OfMail::Links)),
    (b"date of a mail", Kind::Mail(OfMail::Date)),
    (b"mailboxes of a mail", Kind::Mail(OfMail::Mailboxes)),
    (b"words of a mail", Kind::Mail(OfMail::Words)),
    (b"word lists of a mail", Kind::Mail(OfMail::WordLists)),
    (b"texts of a mail", Kind::BodyTexts),
    (b"names", Kind::Steps(Steps::Names)),
    (b"tags", Kind::Steps(Steps::Tags)),
    (b"list", Kind::Steps(Steps::List)),
];

impl Program for Reading {
    fn answer(&self, alloc: Global, row: &Row<'_>) -> Result<Vec<u8>, RowError> {
        let mut lines = Lines::new(alloc);
        let pushed = push_row(alloc, row, &mut lines);
        finish(pushed, lines)
    }
}

fn finish(pushed: Result<(), RowError>, lines: Lines) -> Result<Vec<u8>, RowError> {
    match pushed {
        Ok(()) => lines.into_bytes(),
        Err(error) => Err(error),
    }
}

fn push_row(alloc: Global, row: &Row<'_>, lines: &mut Lines) -> Result<(), RowError> {
    match Question::of(alloc, row) {
        Ok(question) => push(&question, lines),
        Err(error) => Err(error),
    }
}

fn push(question: &Question<'_>, lines: &mut Lines) -> Result<(), RowError> {
    match named(&KINDS, question.row.kind)? {
        Kind::Header(kind) => header_rows::push(kind, question, lines),
        Kind::Bytes(kind) => text_rows::push_decoded(kind, question, lines),
        Kind::Text(kind) => text_rows::push(kind, question, lines),
        Kind::Parts(kind) => part_rows::push(kind, question, lines),
        Kind::Mail(kind) => mail_rows::push(kind, question, lines),
        Kind::BodyTexts => mail_rows::push_texts(question, lines),
        Kind::Steps(kind) => value_rows::push(kind, question, lines),
    }
}
