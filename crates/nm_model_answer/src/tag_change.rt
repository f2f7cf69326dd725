//! What a line asks for that changes tags, once its query is read: `nm_batch` and `nm_dump` make lists of these, and
//! `nm_writer` carries them out.

use nm_base::{Many, TagOp};
use nm_query::Query;

/// Operations on the tags of each message that a query finds.
#[derive(Drop)]
pub struct TagChange {
    /// All its tags are taken off first.
    pub clear: bool,
    pub ops: Many<TagOp>,
    pub query: Query,
}
