//! Rows on a disk to which the bodies of the lines `|` are appended, for `answers`.

use crate::crash_rows::{faults, stops};
use crate::disks::{fresh, head_of};
use crate::index_rows;
use crate::journal_rows::{append_all, written};
use nm_disk::MemDisk;
use rows::{Row, RowError};
use std::alloc::Global;
use std::sync::Wait;
use std::thread::Threads;

/// What is reported once the bodies are appended.
#[derive(Clone, Copy)]
pub enum Asked {
    /// The bytes of `Head`.
    Head,
    /// What a crash within each call of the last append leaves.
    Stops,
    /// How an append goes where one of its calls fails.
    Faults,
    /// What the index that the disk then holds answers.
    Index,
}

/// What is reported of a fresh disk after an append of each body.
pub fn after_appends<R: Threads + Wait + Sync>(
    rt: &R,
    alloc: Global,
    row: &Row<'_>,
    asked: Asked,
) -> Result<Vec<u8>, RowError> {
    let mut owned = fresh(alloc)?;
    append_all(alloc, &mut owned.disk, row)?;
    told_of(rt, alloc, &mut owned.disk, row, asked)
}

fn told_of<R: Threads + Wait + Sync>(
    rt: &R,
    alloc: Global,
    disk: &mut MemDisk,
    row: &Row<'_>,
    asked: Asked,
) -> Result<Vec<u8>, RowError> {
    match asked {
        Asked::Head => written(alloc, row, head_of(disk)),
        Asked::Stops => stops(alloc, disk),
        Asked::Faults => faults(alloc, row, disk.calls()),
        Asked::Index => index_rows::opened(rt, alloc, row, disk),
    }
}
