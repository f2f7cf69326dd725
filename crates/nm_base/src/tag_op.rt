//! One change of a message's tags, for `tag` and the lines of dumps.

use crate::{Copies, NoMemory, Tag};

/// One change of a message's tags.
#[derive(Clone, Drop)]
pub struct TagOp {
    /// Whether the tag is set, else it is taken off.
    pub add: bool,
    pub tag: Tag,
}

impl Copies for TagOp {
    fn copy(&self) -> Result<TagOp, NoMemory> {
        Ok(self.clone()?)
    }
}
