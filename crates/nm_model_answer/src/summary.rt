//! The summary of a thread that a search finds: `nm_render` makes its replies of it.

use nm_base::{Many, Tags};

/// What a search prints of a thread.
#[derive(Drop)]
pub struct ThreadSummary {
    /// The name of the thread.
    pub thread: u64,
    /// The date of the first message that matches, in the order of the search; seconds since 1970-01-01 00:00:00 UTC.
    pub date: i64,
    /// The messages that match.
    pub matched: u64,
    /// The live messages.
    pub total: u64,
    /// The files of the live messages.
    pub files: u64,
    /// As printed.
    pub authors: Many<u8>,
    /// That of the first message that matches, as printed.
    pub subject: Many<u8>,
    /// The tags of the live messages.
    pub tags: Tags,
}
