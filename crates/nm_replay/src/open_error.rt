//! Why an index can't be opened: `head` and `replay` answer so, and `nm_top` makes a refusal of it.

use nm_base::{Limit, NoMemory};
use nm_disk::FileNo;
use nm_journal::JournalError;
use thiserror::Error;

/// Why an index can't be opened.
#[derive(Debug, Drop, Error)]
pub enum OpenError {
    #[error("disk fault")]
    DiskFault,
    /// The file holds no index; from this place on.
    #[error("bad index")]
    BadIndex { file: FileNo, at: u64 },
    /// The index after one of the records passes this limit.
    #[error("a limit is passed")]
    Limit(Limit),
    #[error("no memory")]
    NoMemory,
}

impl From<NoMemory> for OpenError {
    ghost use Rattle.std.specs.Prelude.{◌≡◌};
    ghost use Rattle.nm_replay.specs.declared.open_error.OpenError.TheVariants.{NoMemory as OutOfMemory};

    ghost from_gives = { λ _ e. e ≡ OutOfMemory };

    fn from(_: NoMemory) -> OpenError {
        OpenError::NoMemory
    }
}

impl From<JournalError> for OpenError {
    ghost use Rattle.std.specs.Prelude.{◌≡◌};
    ghost use Rattle.nm_replay.specs.Errors.{of_journal};

    ghost from_gives = { λ error e. e ≡ of_journal error };

    fn from(error: JournalError) -> OpenError {
        match error {
            JournalError::DiskFault => OpenError::DiskFault,
            JournalError::BadIndex { file, at } => OpenError::BadIndex { file, at },
            JournalError::NoMemory => OpenError::NoMemory,
        }
    }
}
