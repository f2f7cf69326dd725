//! Disks in memory, for `disk_rows`, `journal_rows` and `new_rows`. These functions say nothing of what they give, so the rows' proofs carry no
//! model of a disk.

use nm_base::{Many, NoMemory};
use nm_disk::{FileNo, MemDisk, Pick};
use rows::RowError;
use std::alloc::Global;

/// A disk that is dropped by one call, so that each way out of a function that owns one has a single step for it.
pub struct Owned {
    pub disk: MemDisk,
}

impl Drop for Owned {
    fn drop(self) {
        let Owned { disk: _ } = self;
    }
}

/// A disk on which no index was made yet.
pub fn fresh(alloc: Global) -> Result<Owned, NoMemory> {
    let disk = MemDisk::fresh(alloc)?;
    Ok(Owned { disk })
}

/// A disk with these bytes in `Head`.
pub fn with_head(alloc: Global, head: Vec<u8>) -> Owned {
    let head = Many::from_vec(head);
    Owned {
        disk: MemDisk::of(alloc, head, Many::new(alloc), Many::new(alloc)),
    }
}

pub fn head_of(disk: &MemDisk) -> &[u8] {
    disk.bytes(FileNo::Head)
}

/// Lets the call with this number fail, the next one being 1; with 0 none fails any more.
pub fn fail_at(alloc: Global, disk: &mut MemDisk, call: u64) -> Result<(), NoMemory> {
    let mut calls = Many::new(alloc);
    calls.push(call)?;
    disk.fail_at(calls);
    Ok(())
}

/// The disk after a crash within this call.
pub fn stopped(disk: &MemDisk, call: u64, pick: Pick) -> Result<Owned, RowError> {
    if call == 0 || call > disk.calls() {
        return Err(RowError::Broken("no such call"));
    }
    let disk = disk.stop_at(call, pick)?;
    Ok(Owned { disk })
}
