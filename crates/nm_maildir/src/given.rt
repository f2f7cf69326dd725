//! What a mail folder answered, as the log notes it: `nm_scan` and `nm_writer` note each call so, and `nm_log` has the list.

use crate::Renamed;
use nm_base::{MailPath, Many};

/// What a mail folder answered to one step of a command.
#[derive(Drop)]
pub enum Given {
    /// The paths of a whole listing.
    Listed(Many<MailPath>),
    Read {
        path: MailPath,
        answer: ReadAnswer,
    },
    Renamed {
        from: MailPath,
        to: MailPath,
        answer: Renamed,
    },
}

/// What became of a file that was to be read.
#[derive(Drop)]
pub enum ReadAnswer {
    Mail,
    NotMail,
    Missing,
    TooLong,
    /// The bytes themselves, where they are shown.
    Body(Many<u8>),
}
