//! Rows on queries, for `answers`: the tree of a text in one line, or the refusal with its place.

use crate::date_rows::push_end;
use nm_base::{Field, Limit, Text, WordList};
use nm_dates::End;
use nm_query::{Query, QueryError, QueryKind, parse};
use rows::{Lines, RowError};
use std::alloc::Global;

/// The tree of a text, or why it has none.
pub fn push_tree(alloc: Global, lines: &mut Lines, text: &str) -> Result<(), RowError> {
    lines.begin();
    match parse(alloc, text) {
        Ok(query) => push_copy(alloc, lines, &query),
        Err(error) => push_refusal(lines, error),
    }
}

/// The tree is shown from a copy, which has to equal its source.
fn push_copy(alloc: Global, lines: &mut Lines, query: &Query) -> Result<(), RowError> {
    let copy = query.copy(alloc)?;
    push_query(lines, &copy);
    Ok(())
}

fn push_refusal(lines: &mut Lines, error: QueryError) -> Result<(), RowError> {
    match error {
        QueryError::BadQuery { at, kind } => push_place(lines, kind_name(kind), at),
        QueryError::BadDate { at } => push_place(lines, b"DATE", at),
        QueryError::Limit(Limit::QueryBytes) => lines.push(b"TOO LONG"),
        QueryError::Limit(Limit::QueryDepth) => lines.push(b"TOO DEEP"),
        QueryError::Limit(_) => lines.push(b"ANOTHER LIMIT"),
        QueryError::NoMemory => return Err(RowError::NoMemory),
    }
    Ok(())
}

fn kind_name(kind: QueryKind) -> &'static [u8] {
    match kind {
        QueryKind::Quote => b"QUOTE",
        QueryKind::Paren => b"PAREN",
        QueryKind::Operand => b"OPERAND",
        QueryKind::Value => b"VALUE",
        QueryKind::NotHere => b"NOT HERE",
    }
}

fn push_place(lines: &mut Lines, what: &[u8], at: u32) {
    lines.push(what);
    lines.push(b" at ");
    lines.push_number(u64::from(at));
}

#[cycle(tree)]
fn push_query(lines: &mut Lines, query: &Query) {
    match query {
        Query::All => lines.push(b"all"),
        Query::Words {
            field,
            words,
            starts,
        } => push_words(lines, *field, words, *starts),
        Query::Tag(text) => push_text(lines, b"tag", text),
        Query::Id(text) => push_text(lines, b"id", text),
        Query::Thread(number) => push_thread(lines, *number),
        Query::Folder(text) => push_text(lines, b"folder", text),
        Query::Path { dir, deep } => push_path(lines, dir, *deep),
        Query::Mime(text) => push_text(lines, b"type", text),
        Query::Dates { from, to } => push_dates(lines, *from, *to),
        Query::Not(inner) => {
            lines.push(b"not ");
            push_query(lines, inner.get());
        }
        Query::And(queries) => push_list(lines, b"and[", queries.as_slice()),
        Query::Or(queries) => push_list(lines, b"or[", queries.as_slice()),
        Query::Xor(queries) => push_list(lines, b"xor[", queries.as_slice()),
    }
}

/// A list is in brackets.
#[cycle(tree)]
fn push_list(lines: &mut Lines, front: &[u8], queries: &[Query]) {
    lines.push(front);
    'queries: for (i, query) in queries.iter().enumerate() {
        if i > 0 {
            lines.push(b", ");
        }
        push_query(lines, query);
    }
    lines.push(b"]");
}

fn push_text(lines: &mut Lines, what: &[u8], text: &Text) {
    lines.push(what);
    lines.push_after_blank(text.as_bytes());
}

fn push_path(lines: &mut Lines, dir: &Text, deep: bool) {
    if deep {
        push_text(lines, b"path and below", dir);
    } else {
        push_text(lines, b"path", dir);
    }
}

/// `FIELD: WORDS`, with a `*` after the front of a word.
fn push_words(lines: &mut Lines, field: Option<Field>, words: &WordList, starts: bool) {
    match field {
        Some(field) => lines.push(field_name(field)),
        None => lines.push(b"any"),
    }
    lines.push(b":");
    let mut rest = words.words();
    'words: while let Some(word) = rest.take_first() {
        lines.push_after_blank(word);
    }
    if starts {
        lines.push(b"*");
    }
}

fn field_name(field: Field) -> &'static [u8] {
    match field {
        Field::From => b"from",
        Field::To => b"to",
        Field::Subject => b"subject",
        Field::Body => b"body",
        Field::Attachment => b"attachment",
    }
}

fn push_thread(lines: &mut Lines, number: Option<u64>) {
    match number {
        Some(number) => {
            lines.push(b"thread ");
            lines.push_number(number);
        }
        None => lines.push(b"no thread"),
    }
}

/// `from END to END`, as far as they are there.
fn push_dates(lines: &mut Lines, from: Option<End>, to: Option<End>) {
    lines.push(b"dates");
    if let Some(end) = from {
        lines.push(b" from ");
        push_end(lines, end);
    }
    if let Some(end) = to {
        lines.push(b" to ");
        push_end(lines, end);
    }
}
