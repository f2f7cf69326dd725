//! Why the files that `show` asks for could not be read whole, for `nm_line`.

ghost use Rattle.std.specs.Prelude.{◌≡◌};
ghost use Rattle.nm_scan.specs.declared.bodies_error.BodiesError.TheVariants as bodies_error;

use nm_base::NoMemory;
use nm_maildir::MailError;
use thiserror::Error;

/// Why the files that `show` asks for could not be read whole.
#[derive(Clone, Copy, Debug, Error)]
pub enum BodiesError {
    /// The mail folder failed.
    #[error("mail fault")]
    MailFault,
    /// A file has more bytes than a session may still show.
    #[error("a limit is passed")]
    ShowBytes,
    #[error("no memory")]
    NoMemory,
}

impl From<NoMemory> for BodiesError {
    ghost from_gives = { λ _ e. e ≡ bodies_error.NoMemory };

    fn from(_: NoMemory) -> BodiesError {
        BodiesError::NoMemory
    }
}

impl From<MailError> for BodiesError {
    ghost use Rattle.nm_scan.specs.Bodies.{bodies_error_of};

    ghost from_gives = { λ error e. e ≡ bodies_error_of error };

    fn from(error: MailError) -> BodiesError {
        match error {
            MailError::Failed => BodiesError::MailFault,
            MailError::NoMemory => BodiesError::NoMemory,
        }
    }
}
