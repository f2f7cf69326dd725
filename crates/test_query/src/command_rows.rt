//! Rows on the words of calls, for `answers`: what a command asks for, what the options before it say, or how they are refused.

use crate::date_rows::push_signed;
use crate::request_lines::push_request;
use crate::values::{usage_name, words_of};
use nm_base::{Copies, Text, UsageKind};
use nm_command::{CommandError, HeadError, Leading, Request, command, head};
use rows::{Lines, Row, RowError};
use std::alloc::Global;

/// All lines `|` are the words of one command.
pub fn push_words(alloc: Global, lines: &mut Lines, row: &Row<'_>) -> Result<(), RowError> {
    let text = row.text(alloc, b"|")?;
    push_call(alloc, lines, text.as_slice(), '\n')
}

pub fn push_call(
    alloc: Global,
    lines: &mut Lines,
    text: &[u8],
    separator: char,
) -> Result<(), RowError> {
    let words = words_of(alloc, text, separator)?;
    push_command(alloc, lines, words.as_slice())
}

/// What a command asks for, or how it is refused.
fn push_command(alloc: Global, lines: &mut Lines, words: &[Text]) -> Result<(), RowError> {
    lines.begin();
    match command(alloc, words) {
        Ok(request) => push_copy(lines, &request),
        Err(CommandError::Usage { word, kind }) => {
            push_refusal(lines, &word, kind);
            Ok(())
        }
        Err(CommandError::NoMemory) => Err(RowError::NoMemory),
    }
}

/// The request is shown from a copy, which has to equal its source.
fn push_copy(lines: &mut Lines, request: &Request) -> Result<(), RowError> {
    let copy = request.copy()?;
    push_request(lines, &copy);
    Ok(())
}

/// `KIND WORD`, or the kind alone where the word is empty.
fn push_refusal(lines: &mut Lines, word: &Text, kind: UsageKind) {
    lines.push(usage_name(kind).as_bytes());
    lines.push_after_blank(word.as_bytes());
}

/// What the words of the program say before its command.
pub fn push_head(alloc: Global, lines: &mut Lines, text: &[u8]) -> Result<(), RowError> {
    let words = words_of(alloc, text, ' ')?;
    lines.begin();
    match head(alloc, words.as_slice()) {
        Ok(leading) => push_leading(lines, &leading),
        Err(HeadError::Usage) => lines.push(b"USAGE"),
        Err(HeadError::NoMemory) => return Err(RowError::NoMemory),
    }
    Ok(())
}

/// `mail MAIL, index INDEX, workers N, moment N, words N`
fn push_leading(lines: &mut Lines, leading: &Leading) {
    lines.push(b"mail ");
    lines.push(leading.mail.as_bytes());
    lines.push(b", index ");
    lines.push(leading.index.as_bytes());
    lines.push(b", workers ");
    lines.push_number(u64::from(leading.workers));
    match leading.moment {
        Some(second) => push_signed(lines, b", moment ", second),
        None => lines.push(b", no moment"),
    }
    lines.push(b", words ");
    lines.push_number(leading.rest as u64);
}
