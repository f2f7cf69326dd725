//! The index as data: `nm_state` makes snapshots of it and it of snapshots, and the definitions of the machine begin with it.

ghost use Rattle.std.specs.Prelude.{◌≡◌};
ghost use Rattle.nm_model_index.specs.Index.{empty_index};

use nm_base::{Copies, Facts, LinkRow, MailPath, Many, MessageId, NoMemory, Tags};
use std::alloc::Global;

/// The index as data.
#[derive(Drop)]
pub struct Base {
    /// How many commits there were.
    pub revision: u64,
    /// The number that the next new id gets.
    pub next: u64,
    /// The files in the order of their arrival, each with the facts of its mail.
    pub files: Many<(MailPath, Facts)>,
    /// The rows of mails that went while their thread is there, by their bytes.
    pub kept: Many<LinkRow>,
    /// The ids that have been named, by the numbers that they got.
    pub entries: Many<(MessageId, u64)>,
    /// The tags of each message that has a file, by the bytes of its id.
    pub tags: Many<(MessageId, Tags)>,
}

impl Base {
    /// The index before any mail, which takes no memory.
    pub fn empty(alloc: Global) -> Base
        ensures { result ≡ empty_index }
    {
        Base {
            revision: 0,
            next: 1,
            files: Many::new(alloc),
            kept: Many::new(alloc),
            entries: Many::new(alloc),
            tags: Many::new(alloc),
        }
    }
}

impl Copies for Base {
    fn copy(&self) -> Result<Base, NoMemory> {
        Ok(Base {
            revision: self.revision,
            next: self.next,
            files: self.files.copy()?,
            kept: self.kept.copy()?,
            entries: self.entries.copy()?,
            tags: self.tags.copy()?,
        })
    }
}
