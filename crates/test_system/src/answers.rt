//! The kinds of row, and what each asks of the modules beside this one: `main` runs a table by it.

use crate::real_folder::RealFolder;
use crate::{disk_rows, folder_rows, stream_rows};
use rows::{Lines, Program, Row, RowError, named};
use std::alloc::Global;

/// The program that runs the rows on the system.
#[derive(Drop)]
pub struct Outside<'a> {
    pub rt: &'a HostRuntime,
}

/// What the rows of a kind are on.
#[derive(Clone, Copy)]
enum Kind {
    Source,
    Sink,
    Memory,
    In(InFolder),
}

/// What is in a real folder.
#[derive(Clone, Copy)]
enum InFolder {
    Mail,
    Disk,
    File,
}

const KINDS: [(&[u8], Kind); 6] = [
    (b"source", Kind::Source),
    (b"sink", Kind::Sink),
    (b"memory", Kind::Memory),
    (b"folder", Kind::In(InFolder::Mail)),
    (b"disk", Kind::In(InFolder::Disk)),
    (b"file", Kind::In(InFolder::File)),
];

impl Program for Outside<'_> {
    fn answer(&self, alloc: Global, row: &Row<'_>) -> Result<Vec<u8>, RowError> {
        let mut lines = Lines::new(alloc);
        let pushed = push_row(self.rt, row, &mut lines);
        finish(pushed, lines)
    }
}

fn finish(pushed: Result<(), RowError>, lines: Lines) -> Result<Vec<u8>, RowError> {
    match pushed {
        Ok(()) => lines.into_bytes(),
        Err(error) => Err(error),
    }
}

fn push_row(rt: &HostRuntime, row: &Row<'_>, lines: &mut Lines) -> Result<(), RowError> {
    match named(&KINDS, row.kind)? {
        Kind::Source => stream_rows::push_source(rt.alloc(), row, lines),
        Kind::Sink => stream_rows::push_sink(rt.alloc(), row, lines),
        Kind::Memory => stream_rows::push_memory(rt.alloc(), row, lines),
        Kind::In(kind) => push_in_new(rt, kind, row, lines),
    }
}

/// What a row shows in a real folder of its own, which is there as long.
fn push_in_new(
    rt: &HostRuntime,
    kind: InFolder,
    row: &Row<'_>,
    lines: &mut Lines,
) -> Result<(), RowError> {
    match RealFolder::new(rt) {
        Ok(folder) => {
            let pushed = push_in(&folder, kind, row, lines);
            folder.remove().and(pushed)
        }
        Err(error) => Err(error),
    }
}

fn push_in(
    folder: &RealFolder<'_>,
    kind: InFolder,
    row: &Row<'_>,
    lines: &mut Lines,
) -> Result<(), RowError> {
    folder.fill(row)?;
    match kind {
        InFolder::Mail => folder_rows::push(folder, row, lines),
        InFolder::Disk => disk_rows::push(folder, row, lines),
        InFolder::File => stream_rows::push_file(folder, row, lines),
    }
}
