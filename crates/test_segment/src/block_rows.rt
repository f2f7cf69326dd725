//! Rows on blocks, for `answers`: hits as bytes, and bytes as hits.

use crate::hit_lines::{hits_of, push_hits};
use crate::hit_order::are_rising;
use nm_base::{Many, NoMemory};
use nm_blocks::{Hit, Unpack, pack_run};
use rows::{Lines, Row, RowError};
use std::alloc::Global;

/// The blocks of the hits of the lines `|`, as bytes.
pub fn push_packed(alloc: Global, row: &Row<'_>, lines: &mut Lines) -> Result<(), RowError> {
    let hits = hits_of(alloc, row)?;
    push_blocks(alloc, hits.as_slice(), lines)
}

fn push_blocks(alloc: Global, hits: &[Hit], lines: &mut Lines) -> Result<(), RowError> {
    if !are_rising(hits) {
        return Err(RowError::Broken("hits that do not rise"));
    }
    let mut bytes = Many::new(alloc);
    let packed = pack_run(&mut bytes, hits);
    lines.line(bytes.as_slice());
    Ok(packed?)
}

/// The hits of the blocks that the text of the lines `|` is.
pub fn push_unpacked(alloc: Global, row: &Row<'_>, lines: &mut Lines) -> Result<(), RowError> {
    let bytes = row.text(alloc, b"|")?;
    let hits = unpacked(alloc, bytes.as_slice())?;
    push_hits(hits.as_slice(), lines);
    Ok(())
}

fn unpacked(alloc: Global, bytes: &[u8]) -> Result<Many<Hit>, NoMemory> {
    let mut hits = Many::new(alloc);
    let mut left = Unpack::new(bytes);
    'hits: while let Some(hit) = left.next() {
        hits.push(hit)?;
    }
    Ok(hits)
}
