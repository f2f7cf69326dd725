//! The parts of a snapshot of `nm_state`, which the work of a commit changes one by one.

ghost use Rattle.std.specs.Prelude.{◌≡◌, IfOk};
ghost use Rattle.nm_model_index.specs.Index.{empty_index};
ghost use Rattle.nm_parts.specs.Parts.{AreParts, base_of};

use nm_base::{Copies, LinkRow, NoMemory};
use nm_shared::Shared;
use nm_tables::{FileTable, MeasuredLabels, MeasuredMap, MessageTags, RowBytes};
use std::alloc::Global;

/// Files, rows of mails that went, labels and tags.
pub struct Parts {
    pub revision: u64,
    pub file_table: FileTable,
    pub kept: MeasuredMap<RowBytes, Shared<LinkRow>>,
    pub labels: MeasuredLabels,
    pub tags: MessageTags,
}

impl Drop for Parts {
    fn drop(self) {
        let Parts {
            revision: _,
            file_table: _,
            kept: _,
            labels: _,
            tags: _,
        } = self;
    }
}

impl Parts {
    /// No mail, in no memory.
    pub fn new(alloc: Global) -> Parts
        ensures parts { AreParts result }
        ensures base { base_of result ≡ empty_index }
    {
        Parts {
            revision: 0,
            file_table: FileTable::new(alloc),
            kept: MeasuredMap::new(alloc),
            labels: MeasuredLabels::new(alloc),
            tags: MessageTags::new(alloc),
        }
    }

    /// Clones of all parts.
    pub fn share(&self) -> Result<Parts, NoMemory>
        ensures { IfOk result (λ parts. parts ≡ self.now) }
    {
        Ok(Parts {
            revision: self.revision,
            file_table: self.file_table.share()?,
            kept: self.kept.share()?,
            labels: self.labels.copy()?,
            tags: self.tags.share()?,
        })
    }
}
