//! Why a row has no answer: `row` finds it, programs as `test_mail` pass it on, and `report` tells it.

use nm_base::NoMemory;
use std::alloc::{AllocError, AllocFailed};

/// Why a row can't be run.
#[derive(Clone, Copy)]
pub enum RowError {
    /// The row is not written in the language of the table.
    Broken(&'static str),
    NoMemory,
}

impl From<NoMemory> for RowError {
    fn from(_: NoMemory) -> RowError {
        RowError::NoMemory
    }
}

impl From<AllocError> for RowError {
    fn from(_: AllocError) -> RowError {
        RowError::NoMemory
    }
}

impl<T: Drop> From<AllocFailed<T>> for RowError {
    fn from(_: AllocFailed<T>) -> RowError {
        RowError::NoMemory
    }
}
