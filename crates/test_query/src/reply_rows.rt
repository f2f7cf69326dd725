//! Rows on replies, for `answers`: to searches and shows, to the queries of a count, to lines of tag changes, and dumps.

use crate::change_rows::{push_fault, push_ops};
use crate::found_rows::push_ids;
use crate::show_rows::push_shown;
use crate::values::{query_of, words_of};
use nm_base::{Boxed, CountAsk, DumpForm, SearchAsk};
use nm_batch::{read_queries, read_taggings};
use nm_command::{Request, command};
use nm_dump::dump;
use nm_eval::matches;
use nm_model_answer::TagChange;
use nm_query::Query;
use nm_render::{counts_reply, search_reply};
use nm_state::Snapshot;
use rows::{Lines, Row, RowError, named};
use std::alloc::Global;

const FORMS: [(&[u8], DumpForm); 2] = [(b"batch-tag", DumpForm::BatchTag), (b"sup", DumpForm::Sup)];

/// The reply to a call: the words come after the command, which `front` is.
pub fn push_reply(
    alloc: Global,
    lines: &mut Lines,
    row: &Row<'_>,
    index: &Snapshot,
    front: &[u8],
    words: &[u8],
) -> Result<(), RowError> {
    let call = call_of(alloc, front, words)?;
    let request = request_of(alloc, call.as_slice())?;
    push_answer(alloc, lines, row, index, request.get())
}

fn call_of(alloc: Global, front: &[u8], words: &[u8]) -> Result<Vec<u8>, RowError> {
    let mut call = Lines::new(alloc);
    call.line(front);
    call.push_after_blank(words);
    call.into_bytes()
}

fn request_of(alloc: Global, call: &[u8]) -> Result<Boxed<Request>, RowError> {
    let words = words_of(alloc, call, ' ')?;
    match command(alloc, words.as_slice()) {
        Ok(request) => Ok(Boxed::new(alloc, request)?),
        Err(_) => Err(RowError::Broken("no call where the row has one")),
    }
}

fn push_answer(
    alloc: Global,
    lines: &mut Lines,
    row: &Row<'_>,
    index: &Snapshot,
    request: &Request,
) -> Result<(), RowError> {
    if let Request::Search(ask) = request {
        return push_search(alloc, lines, index, ask);
    }
    if let Request::Count(ask) = request {
        return push_counts(alloc, lines, row, index, ask);
    }
    if let Request::Show(ask) = request {
        return push_shown(alloc, lines, row, index, ask);
    }
    Err(RowError::Broken("no such call has a reply in a row"))
}

fn push_search(
    alloc: Global,
    lines: &mut Lines,
    index: &Snapshot,
    ask: &SearchAsk,
) -> Result<(), RowError> {
    let query = query_of(alloc, ask.query.as_str())?;
    let text = search_reply(alloc, index, ask, query.get(), 0)?;
    lines.text(text.as_slice());
    Ok(())
}

/// The reply to a count whose words come after `?`.
pub fn push_count(
    alloc: Global,
    lines: &mut Lines,
    row: &Row<'_>,
    index: &Snapshot,
) -> Result<(), RowError> {
    let words = row.text(alloc, b"?")?;
    push_reply(alloc, lines, row, index, b"count --batch", words.as_slice())
}

/// A line for each query of the lines `|`, or the first of them that is none.
fn push_counts(
    alloc: Global,
    lines: &mut Lines,
    row: &Row<'_>,
    index: &Snapshot,
    ask: &CountAsk,
) -> Result<(), RowError> {
    let input = row.text(alloc, b"|")?;
    match read_queries(alloc, input.as_slice()) {
        Ok(queries) => push_counted(alloc, lines, index, ask, queries.as_slice()),
        Err(error) => push_fault(lines, error),
    }
}

fn push_counted(
    alloc: Global,
    lines: &mut Lines,
    index: &Snapshot,
    ask: &CountAsk,
    queries: &[Query],
) -> Result<(), RowError> {
    let text = counts_reply(alloc, index, ask, queries, 0)?;
    lines.text(text.as_slice());
    Ok(())
}

/// A line for each line `|` that is not passed over, or the first of them that is none; where all tags are taken off first there
/// is a line `?`.
pub fn push_taggings(
    alloc: Global,
    lines: &mut Lines,
    row: &Row<'_>,
    index: &Snapshot,
) -> Result<(), RowError> {
    let input = row.text(alloc, b"|")?;
    match read_taggings(alloc, input.as_slice(), row.has(b"?")) {
        Ok(read) => push_all(alloc, lines, index, read.as_slice()),
        Err(error) => push_fault(lines, error),
    }
}

fn push_all(
    alloc: Global,
    lines: &mut Lines,
    index: &Snapshot,
    read: &[TagChange],
) -> Result<(), RowError> {
    if read.is_empty() {
        lines.line(b"-");
    }
    'read: for tagging in read {
        push_tagging(alloc, lines, index, tagging)?;
    }
    Ok(())
}

/// The changes, and the ids of the messages that they are for.
fn push_tagging(
    alloc: Global,
    lines: &mut Lines,
    index: &Snapshot,
    tagging: &TagChange,
) -> Result<(), RowError> {
    let ids = matches(alloc, index, &tagging.query, 0, false)?;
    lines.begin();
    push_ops(lines, tagging.ops.as_slice());
    lines.push(b"for ");
    push_ids(lines, ids.as_slice(), b"nothing");
    Ok(())
}

/// The dump of all messages, in the form after `?`.
pub fn push_dump(
    alloc: Global,
    lines: &mut Lines,
    row: &Row<'_>,
    index: &Snapshot,
) -> Result<(), RowError> {
    let form = form_of(alloc, row)?;
    let all = query_of(alloc, "*")?;
    let ids = matches(alloc, index, all.get(), 0, false)?;
    let text = dump(alloc, index, &ids, form)?;
    lines.text(text.as_slice());
    Ok(())
}

fn form_of(alloc: Global, row: &Row<'_>) -> Result<DumpForm, RowError> {
    let asked = row.text(alloc, b"?")?;
    named(&FORMS, asked.as_slice())
}
