//! Rows on the index that a disk holds, for `disk_rows`: what is opened.

use crate::journal_rows::bad_at;
use crate::snapshot_rows::told;
use nm_disk::Disk;
use nm_replay::OpenError;
use nm_state::Snapshot;
use nm_writer::{Opened, Writer};
use rows::{Row, RowError};
use std::alloc::Global;
use std::sync::Wait;
use std::thread::Threads;

/// This many workers read the records.
const WORKERS: u32 = 2;

/// What the index that the disk holds answers to what comes after `?`, or the place of the bad record.
pub fn opened<R: Threads + Wait + Sync, D: Disk>(
    rt: &R,
    alloc: Global,
    row: &Row<'_>,
    disk: &mut D,
) -> Result<Vec<u8>, RowError> {
    match Writer::open(rt, alloc, disk, 0, WORKERS) {
        Ok(opened) => answered(rt, alloc, row, opened),
        Err(error) => refused(alloc, error),
    }
}

fn answered<R: Wait>(
    rt: &R,
    alloc: Global,
    row: &Row<'_>,
    opened: Opened,
) -> Result<Vec<u8>, RowError> {
    let Opened { writer, readers: _ } = opened;
    let answer = told_of(alloc, row, writer.snapshot());
    let _ = writer.finish(rt);
    answer
}

fn told_of(alloc: Global, row: &Row<'_>, snapshot: &Snapshot) -> Result<Vec<u8>, RowError> {
    let asked = row.text(alloc, b"?")?;
    told(alloc, snapshot, asked.as_slice())
}

fn refused(alloc: Global, error: OpenError) -> Result<Vec<u8>, RowError> {
    match error {
        OpenError::BadIndex { at, .. } => bad_at(alloc, at),
        OpenError::Limit(_) => Err(RowError::Broken("a limit is passed")),
        OpenError::DiskFault => Err(RowError::Broken("disk fault")),
        OpenError::NoMemory => Err(RowError::NoMemory),
    }
}
