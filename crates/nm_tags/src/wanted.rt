//! What a line of a dump asks for: `nm_dump` reads it, and `nm_writer` sets it.

use crate::TagOp;
use nm_base::{Many, MessageId};

/// Changes of the tags of one message.
#[derive(Drop)]
pub struct Wanted {
    /// Counted from 1, lines that are passed over too.
    pub line: u32,
    pub id: MessageId,
    pub ops: Many<TagOp>,
}
