//! Why a commit or a command was refused: `new` and `tag` answer so, and `nm_session` makes its text of it.

use nm_base::{Limit, NoMemory};
use thiserror::Error;

/// Why a commit or a command was refused.
#[derive(Clone, Copy, Debug, Error)]
pub enum WriteError {
    /// The mail folder failed, and nothing is changed.
    #[error("mail fault")]
    MailFault,
    /// The disk failed: it may hold the commit or not, and the writer is closed.
    #[error("disk fault")]
    DiskFault,
    /// The disk had failed before, when it had n faults; no device is asked.
    #[error("closed by a disk fault")]
    Closed { fault: u64 },
    #[error("a limit is passed")]
    Limit(Limit),
    #[error("no memory")]
    NoMemory,
}

impl From<NoMemory> for WriteError {
    ghost use Rattle.std.specs.Prelude.{◌≡◌};
    ghost use Rattle.nm_writer.specs.declared.write_error.WriteError.TheVariants.{NoMemory as OutOfMemory};

    ghost from_gives = { λ _ e. e ≡ OutOfMemory };

    fn from(_: NoMemory) -> WriteError {
        WriteError::NoMemory
    }
}
