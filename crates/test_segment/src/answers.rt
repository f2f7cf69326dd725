//! The kinds of row, and what each asks of the modules beside this one: `main` runs a table by it.

use crate::segment_rows::{self, Made};
use crate::{block_rows, tier_rows};
use rows::{Lines, Program, Row, RowError, named};
use std::alloc::Global;

/// The program that runs the rows on blocks and segments.
pub struct Searching;

/// What a row is on.
#[derive(Clone, Copy)]
enum Kind {
    Packed,
    Unpacked,
    Segment(Made),
    Tiers,
}

const KINDS: [(&[u8], Kind); 6] = [
    (b"packed", Kind::Packed),
    (b"unpacked", Kind::Unpacked),
    (b"segment", Kind::Segment(Made::Built)),
    (b"joined", Kind::Segment(Made::Joined)),
    (b"merged", Kind::Segment(Made::Merged)),
    (b"settled", Kind::Tiers),
];

impl Program for Searching {
    fn answer(&self, alloc: Global, row: &Row<'_>) -> Result<Vec<u8>, RowError> {
        let mut lines = Lines::new(alloc);
        let pushed = push(alloc, row, &mut lines);
        finish(pushed, lines)
    }
}

fn finish(pushed: Result<(), RowError>, lines: Lines) -> Result<Vec<u8>, RowError> {
    match pushed {
        Ok(()) => lines.into_bytes(),
        Err(error) => Err(error),
    }
}

fn push(alloc: Global, row: &Row<'_>, lines: &mut Lines) -> Result<(), RowError> {
    match named(&KINDS, row.kind)? {
        Kind::Packed => block_rows::push_packed(alloc, row, lines),
        Kind::Unpacked => block_rows::push_unpacked(alloc, row, lines),
        Kind::Segment(made) => segment_rows::push(made, alloc, row, lines),
        Kind::Tiers => tier_rows::push(alloc, row, lines),
    }
}
