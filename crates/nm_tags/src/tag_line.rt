//! What a line of tag changes asks for; `tag --batch` and dumps have such lines.

use crate::TagOp;
use nm_base::{Many, Text};

/// Changes of tags, and the query whose messages they are made to.
#[derive(Drop)]
pub struct TagLine {
    /// Counted from 1, empty lines and comments too.
    pub line: u32,
    pub ops: Many<TagOp>,
    pub query: Text,
}
