//! Rows on an append in which the disk crashes, or that fails, within each of its calls, for `disk_rows`.

use crate::disks::{fail_at, fresh, stopped};
use crate::journal_rows::{append_all, bodies_from};
use nm_disk::{Disk, MemDisk, Pick};
use rows::{Lines, Row, RowError};
use std::alloc::Global;

/// What the ranges hold that are not synced, in the order of the columns.
const PICKS: [Pick; 5] = [
    Pick::Old,
    Pick::New,
    Pick::Fill(0),
    Pick::Fill(1),
    Pick::Fill(255),
];

/// A line for each of the four calls of the last append: how many records are found after a crash within it, for each
/// pick.
pub fn stops(alloc: Global, disk: &MemDisk) -> Result<Vec<u8>, RowError> {
    let before = disk.calls().saturating_sub(4);
    let mut lines = Lines::new(alloc);
    'calls: for call in 1..5 {
        begin_call(&mut lines, call);
        push_stops(alloc, &mut lines, disk, before.saturating_add(call));
    }
    lines.into_bytes()
}

fn begin_call(lines: &mut Lines, call: u64) {
    lines.begin();
    lines.push_number(call);
    lines.push(b":");
}

fn push_stops(alloc: Global, lines: &mut Lines, disk: &MemDisk, call: u64) {
    'picks: for pick in PICKS {
        lines.push(b" ");
        push_stop(alloc, lines, disk, call, pick);
    }
}

fn push_stop(alloc: Global, lines: &mut Lines, disk: &MemDisk, call: u64, pick: Pick) {
    match stopped(disk, call, pick) {
        Ok(mut after) => push_count(alloc, lines, &mut after.disk),
        Err(_) => lines.push(b"no memory"),
    }
}

/// How many records `Head` has.
fn push_count<D: Disk>(alloc: Global, lines: &mut Lines, disk: &mut D) {
    match bodies_from(alloc, disk, 0) {
        Ok(bodies) => lines.push_number(bodies.len() as u64),
        Err(_) => lines.push(b"bad"),
    }
}

/// A line for each call of the last append, and for none: how it answers where that call fails, how often the disk has failed, and
/// how many records a read then gives.
pub fn faults(alloc: Global, row: &Row<'_>, calls: u64) -> Result<Vec<u8>, RowError> {
    let before = calls.saturating_sub(4);
    let mut lines = Lines::new(alloc);
    'calls: for call in 1..6 {
        begin_call(&mut lines, call);
        push_fault(alloc, &mut lines, row, before.saturating_add(call));
    }
    lines.into_bytes()
}

fn push_fault(alloc: Global, lines: &mut Lines, row: &Row<'_>, call: u64) {
    match fresh(alloc) {
        Ok(mut owned) => push_fault_of(alloc, lines, &mut owned.disk, row, call),
        Err(_) => lines.push(b" no memory"),
    }
}

fn push_fault_of(alloc: Global, lines: &mut Lines, disk: &mut MemDisk, row: &Row<'_>, call: u64) {
    let _ = fail_at(alloc, disk, call);
    push_append(alloc, lines, disk, row);
    let _ = fail_at(alloc, disk, 0);
    lines.push(b", records ");
    push_count(alloc, lines, disk);
}

fn push_append<D: Disk>(alloc: Global, lines: &mut Lines, disk: &mut D, row: &Row<'_>) {
    match append_all(alloc, disk, row) {
        Ok(true) => lines.push(b" acknowledged, faults "),
        Ok(false) => lines.push(b" disk fault, faults "),
        Err(_) => lines.push(b" broken, faults "),
    }
    lines.push_number(disk.faults());
}
