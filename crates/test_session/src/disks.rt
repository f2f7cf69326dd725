//! Disks in memory for `session_rows` and `crash_rows`. These functions say nothing of what they give, so the rows'
//! proofs carry no model of a disk. A disk is in a box, which drops it by one call: without one, each way out of what owns it would
//! drop it field by field.

use nm_base::Many;
use nm_disk::{FileNo, MemDisk, Pick};
use rows::RowError;
use std::alloc::Global;

pub fn fresh(alloc: Global) -> Result<Box<MemDisk>, RowError> {
    Ok(Box::new(alloc, MemDisk::fresh(alloc)?)?)
}

/// A disk whose head file has these bytes.
pub fn with_head(alloc: Global, head: &[u8]) -> Result<Box<MemDisk>, RowError> {
    let head = Many::from_slice(alloc, head)?;
    let disk = MemDisk::of(alloc, head, Many::new(alloc), Many::new(alloc));
    Ok(Box::new(alloc, disk)?)
}

pub fn head_of(disk: &MemDisk) -> &[u8] {
    disk.bytes(FileNo::Head)
}

/// Lets these calls fail, the next one being 1.
pub fn fail_at(disk: &mut MemDisk, calls: Many<u64>) {
    disk.fail_at(calls);
}

/// How many calls were made, as `MemDisk::calls` tells.
pub fn calls(disk: &MemDisk) -> u64 {
    disk.calls()
}

/// The disk after a crash within this call, the first one since it was made being 1.
pub fn stopped(
    alloc: Global,
    disk: &MemDisk,
    call: u64,
    pick: Pick,
) -> Result<Box<MemDisk>, RowError> {
    if call == 0 || call > disk.calls() {
        return Err(RowError::Broken("no such call"));
    }
    Ok(Box::new(alloc, disk.stop_at(call, pick)?)?)
}
