//! What a mail folder answers to a listing, a read and a rename, for every `Maildir` and whoever calls it, as `nm_scan`.

ghost use Rattle.std.specs.Prelude.{◌≡◌};
ghost use Rattle.nm_maildir.specs.declared.answers.MailError.TheVariants as mail_error;

use nm_base::{Many, NoMemory, Text};
use std::alloc::{AllocError, AllocFailed};
use thiserror::Error;

/// The names in one folder, each list in byte order without repeats.
#[derive(Drop)]
pub struct Listing {
    pub dirs: Many<Text>,
    pub files: Many<Text>,
}

/// What a read found.
#[derive(Drop)]
pub enum Got {
    Found(Many<u8>),
    Missing,
    /// The file has more bytes than were asked for.
    TooLong,
}

/// What a rename did.
#[derive(Clone, Copy)]
pub enum Renamed {
    Moved,
    /// The source is not there.
    Missing,
    /// The target is there already.
    Exists,
}

/// Why a call of a mail folder gave nothing.
#[derive(Clone, Copy, Debug, Error)]
pub enum MailError {
    #[error("the mail folder failed")]
    Failed,
    #[error("no memory")]
    NoMemory,
}

impl From<NoMemory> for MailError {
    ghost from_gives = { λ _ e. e ≡ mail_error.NoMemory };

    fn from(_: NoMemory) -> MailError {
        MailError::NoMemory
    }
}

impl From<AllocError> for MailError {
    ghost from_gives = { λ _ e. e ≡ mail_error.NoMemory };

    fn from(_: AllocError) -> MailError {
        MailError::NoMemory
    }
}

impl<T: Drop> From<AllocFailed<T>> for MailError {
    ghost from_gives = { λ _ e. e ≡ mail_error.NoMemory };

    fn from(_: AllocFailed<T>) -> MailError {
        MailError::NoMemory
    }
}
