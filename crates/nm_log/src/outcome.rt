//! How a line ends: `nm_session` says it, and `nm_top` makes the status of it.

use nm_base::{Limit, MailPath, Text, UsageKind};
use nm_query::QueryKind;
use nm_tags::LineKind;

/// How a line of a session, or a single command, ended.
#[derive(Drop)]
pub enum Outcome {
    Ok,
    /// The words are outside the grammar; `word` is the one at fault.
    Usage { word: Text, kind: UsageKind },
    /// The query has no tree; `at` is the byte of its text at fault.
    BadQuery { at: u32, kind: QueryKind },
    /// An end of a range of dates in the query is no date.
    BadDate { at: u32 },
    /// This line of the input is not of its form, the first of them.
    BadLine { line: u32, kind: LineKind },
    /// Raw form shows one message, and the query finds this number of them.
    NotOne { found: u64 },
    /// The file that raw form asks for is not there any more, or it is too long.
    Gone { path: MailPath },
    MailFault,
    DiskFault,
    /// The disk failed in an earlier line, when it had failed so often.
    Closed { fault: u64 },
    Limit(Limit),
    NoMemory,
}
