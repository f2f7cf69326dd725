//! Why a mail folder could not be listed whole, for the `new` of `nm_writer`.

ghost use Rattle.std.specs.Prelude.{◌≡◌};
ghost use Rattle.nm_scan.specs.declared.scan_error.ScanError.TheVariants as scan_error;

use nm_base::{Limit, NoMemory};
use nm_maildir::MailError;
use thiserror::Error;

/// Why a mail folder could not be listed whole.
#[derive(Clone, Copy, Debug, Error)]
pub enum ScanError {
    /// The mail folder failed.
    #[error("mail fault")]
    MailFault,
    /// It has more folders or files than are listed, or folders that are deeper.
    #[error("a limit is passed")]
    Limit(Limit),
    #[error("no memory")]
    NoMemory,
}

impl From<NoMemory> for ScanError {
    ghost from_gives = { λ _ e. e ≡ scan_error.NoMemory };

    fn from(_: NoMemory) -> ScanError {
        ScanError::NoMemory
    }
}

impl From<MailError> for ScanError {
    ghost use Rattle.nm_scan.specs.Walk.{scan_error_of};

    ghost from_gives = { λ error e. e ≡ scan_error_of error };

    fn from(error: MailError) -> ScanError {
        match error {
            MailError::Failed => ScanError::MailFault,
            MailError::NoMemory => ScanError::NoMemory,
        }
    }
}
