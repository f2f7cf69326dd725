//! The two errors that every crate passes on: a failed device, as `nm_io` and `nm_disk` tell it, and no memory.

use std::alloc::{AllocError, AllocFailed};
use thiserror::Error;

/// A device outside the process failed. Its count of faults tells more.
#[derive(Clone, Copy, Debug, Error)]
#[error("a device failed")]
pub struct Failed;

/// There was no memory.
#[derive(Clone, Copy, Debug, Error)]
#[error("no memory")]
pub struct NoMemory;

impl From<AllocError> for NoMemory {
    fn from(_: AllocError) -> NoMemory {
        NoMemory
    }
}

impl<T: Drop> From<AllocFailed<T>> for NoMemory {
    fn from(_: AllocFailed<T>) -> NoMemory {
        NoMemory
    }
}
