//! Rows on the room that an index has for a commit, for `answers`.

ghost use Rattle.std.specs.Prelude.{◌^◌, ◌≤◌, IfOk};
ghost use Rattle.nm_model_index.specs.Valid.{IsValid};

use crate::commit_lines::commit_of;
use crate::names::is_item;
use nm_base::{Limit, Many};
use nm_commit::Commit;
use nm_model_index::Base;
use nm_state::{RoomError, Snapshot};
use rows::{Lines, Row, RowError};
use std::alloc::Global;

/// The number that no next number passes.
const MOST: u64 = 1 << 63;

/// Whether an index without files has room for the commit of each line `|`; its next number and its revision are those of the row.
pub fn told(alloc: Global, row: &Row<'_>) -> Result<Vec<u8>, RowError> {
    let next = row.number(b"next", 1)?;
    let revision = row.number(b"revision", 0)?;
    let snapshot = bare(alloc, next, revision)?;
    told_of(alloc, &snapshot, row)
}

/// An index without files.
fn bare(alloc: Global, next: u64, revision: u64) -> Result<Snapshot, RowError> {
    let base = base_of(alloc, next, revision)?;
    Ok(Snapshot::of(alloc, &base)?)
}

fn base_of(alloc: Global, next: u64, revision: u64) -> Result<Base, RowError>
    ensures valid { IfOk result (λ base. IsValid base) }
    ensures numbers { IfOk result (λ base. base.next ≤ 2 ^ 63) }
{
    if next == 0 || next > MOST {
        return Err(RowError::Broken("no next number"));
    }
    Ok(Base {
        revision,
        next,
        files: Many::new(alloc),
        kept: Many::new(alloc),
        entries: Many::new(alloc),
        tags: Many::new(alloc),
    })
}

fn told_of(alloc: Global, snapshot: &Snapshot, row: &Row<'_>) -> Result<Vec<u8>, RowError> {
    let mut lines = Lines::new(alloc);
    'commits: for line in row.lines.as_slice() {
        if is_item(line) {
            lines.line(room_for(alloc, snapshot, line.bytes.as_slice()));
        }
    }
    lines.into_bytes()
}

fn room_for(alloc: Global, snapshot: &Snapshot, line: &[u8]) -> &'static [u8] {
    match commit_of(alloc, line) {
        Ok(commit) => room_of(snapshot, &commit),
        Err(_) => b"no commit",
    }
}

fn room_of(snapshot: &Snapshot, commit: &Commit) -> &'static [u8] {
    match snapshot.fits(commit) {
        Ok(true) => match snapshot.room(commit) {
            Ok(()) => b"there is room",
            Err(RoomError::Limit(limit)) => limit_name(limit),
            Err(RoomError::NoMemory) => b"no memory",
        },
        Ok(false) => b"does not fit",
        Err(_) => b"no memory",
    }
}

fn limit_name(limit: Limit) -> &'static [u8] {
    match limit {
        Limit::Files => b"limit files",
        Limit::IndexBytes => b"limit bytes",
        Limit::Numbers => b"limit numbers",
        _ => b"another limit",
    }
}
