//! What a command that sets tags tells of the files that keep their names: `nm_writer` notes it, and `nm_log` makes
//! its text of it.

use nm_base::{MailPath, Many};

/// Why a file keeps its name.
#[derive(Clone, Copy)]
pub enum Unmoved {
    /// It isn't there.
    Missing,
    /// Another file has the new name.
    Exists,
    /// The new name would be too long.
    Long,
}

/// What a command that sets tags did with the names of files.
#[derive(Drop)]
pub struct SyncReport {
    /// The files that keep names which don't follow their tags, in the order in which they were passed.
    pub unmoved: Many<(MailPath, Unmoved)>,
}
