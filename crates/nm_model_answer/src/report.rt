//! What `new` tells of its work: `nm_writer` counts it, and `nm_log` makes its text of it.

use nm_base::{MailPath, Many, Skip};

/// What `new` did.
#[derive(Drop)]
pub struct NewReport {
    /// Files.
    pub added: u64,
    pub removed: u64,
    /// Messages that are live now and were not before.
    pub born: u64,
    /// Messages that were live before and are not now.
    pub died: u64,
    /// The files passed over, in the order of their paths.
    pub skipped: Many<(MailPath, Skip)>,
}
