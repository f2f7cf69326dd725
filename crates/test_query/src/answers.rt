//! What comes of a row, by its kind. `main` runs a table by it.

use crate::index::index_of;
use crate::{
    change_rows, command_rows, date_rows, drill_rows, found_rows, name_rows, query_rows,
    reply_rows, script_rows,
};
use nm_state::Snapshot;
use rows::{Lines, Program, Row, RowError, named, text_of};
use std::alloc::Global;

/// The rows on what is asked, and on what answers.
pub struct Asking;

/// A kind of row whose lines `|` are answered one by one.
#[derive(Clone, Copy)]
enum Each {
    Query,
    DateEnd,
    Day,
    Found,
    FoundOfAll,
    Flags,
    WithFlags,
    Command,
    Leading,
    Drill,
    Reply,
}

const EACH: [(&[u8], Each); 12] = [
    (b"query", Each::Query),
    (b"date end", Each::DateEnd),
    (b"day", Each::Day),
    (b"found", Each::Found),
    (b"found of all", Each::FoundOfAll),
    (b"flags", Each::Flags),
    (b"with flags", Each::WithFlags),
    (b"command", Each::Command),
    (b"leading", Each::Leading),
    (b"drill", Each::Drill),
    (b"search", Each::Reply),
    (b"show", Each::Reply),
];

/// A kind of row that has one answer.
#[derive(Clone, Copy)]
enum Whole {
    TagsFromNames,
    RenamePlan,
    TagLines,
    DumpLines,
    Words,
    Script,
    DrillScript,
    Count,
    Tag,
    Dump,
}

const WHOLE: [(&[u8], Whole); 10] = [
    (b"tags from names", Whole::TagsFromNames),
    (b"rename plan", Whole::RenamePlan),
    (b"tag lines", Whole::TagLines),
    (b"dump lines", Whole::DumpLines),
    (b"words", Whole::Words),
    (b"script", Whole::Script),
    (b"script of a drill", Whole::DrillScript),
    (b"count", Whole::Count),
    (b"tag", Whole::Tag),
    (b"dump", Whole::Dump),
];

impl Program for Asking {
    fn answer(&self, alloc: Global, row: &Row<'_>) -> Result<Vec<u8>, RowError> {
        let index = index_of(alloc, row)?;
        let mut lines = Lines::new(alloc);
        push_answer(alloc, &mut lines, row, &index)?;
        lines.into_bytes()
    }
}

fn push_answer(
    alloc: Global,
    lines: &mut Lines,
    row: &Row<'_>,
    index: &Snapshot,
) -> Result<(), RowError> {
    match named(&EACH, row.kind) {
        Ok(kind) => push_each(alloc, lines, row, index, kind),
        Err(_) => push_whole(alloc, lines, row, index),
    }
}

fn push_each(
    alloc: Global,
    lines: &mut Lines,
    row: &Row<'_>,
    index: &Snapshot,
    kind: Each,
) -> Result<(), RowError> {
    'lines: for line in row.lines.as_slice() {
        if line.mark == b"|".as_slice() {
            push_line(alloc, lines, row, index, kind, line.bytes.as_slice())?;
        }
    }
    Ok(())
}

fn push_line(
    alloc: Global,
    lines: &mut Lines,
    row: &Row<'_>,
    index: &Snapshot,
    kind: Each,
    text: &[u8],
) -> Result<(), RowError> {
    match kind {
        Each::Query => query_rows::push_tree(alloc, lines, text_of(text)?),
        Each::DateEnd => date_rows::push_seconds(lines, row, text_of(text)?),
        Each::Day => date_rows::push_day(lines, text),
        Each::Found => found_rows::push_found(alloc, lines, row, index, true, text),
        Each::FoundOfAll => found_rows::push_found(alloc, lines, row, index, false, text),
        Each::Flags => name_rows::push_flags_of(alloc, lines, text),
        Each::WithFlags => name_rows::push_target(alloc, lines, row, text),
        Each::Command => command_rows::push_call(alloc, lines, text, ' '),
        Each::Leading => command_rows::push_head(alloc, lines, text),
        Each::Drill => drill_rows::push_place(alloc, lines, row, text),
        Each::Reply => reply_rows::push_reply(alloc, lines, row, index, row.kind, text),
    }
}

fn push_whole(
    alloc: Global,
    lines: &mut Lines,
    row: &Row<'_>,
    index: &Snapshot,
) -> Result<(), RowError> {
    match named(&WHOLE, row.kind)? {
        Whole::TagsFromNames => name_rows::push_message(alloc, lines, row, false),
        Whole::RenamePlan => name_rows::push_message(alloc, lines, row, true),
        Whole::TagLines => change_rows::push_tag_lines(alloc, lines, row),
        Whole::DumpLines => change_rows::push_dump_lines(alloc, lines, row),
        Whole::Words => command_rows::push_words(alloc, lines, row),
        Whole::Script => script_rows::push_script(alloc, lines, row),
        Whole::DrillScript => drill_rows::push_drill_script(alloc, lines),
        Whole::Count => reply_rows::push_count(alloc, lines, row, index),
        Whole::Tag => reply_rows::push_taggings(alloc, lines, row, index),
        Whole::Dump => reply_rows::push_dump(alloc, lines, row, index),
    }
}
