//! Changes and commits, which `new` makes and the machine takes.

use nm_base::{Copies, Facts, MailPath, Many, MessageId, NoMemory, Tags};
use nm_shared::Shared;

/// One change of an index.
#[derive(Drop)]
pub enum Change {
    /// A mail has come. Its facts are shared by all that hold them.
    Add {
        path: MailPath,
        facts: Shared<Facts>,
    },
    /// A mail is removed.
    Drop {
        path: MailPath,
    },
    /// A mail has another name.
    Move {
        from: MailPath,
        to: MailPath,
    },
    /// A message has these tags and no others.
    SetTags {
        id: MessageId,
        tags: Tags,
    },
}

/// Changes that are made together or not at all.
#[derive(Drop)]
pub struct Commit {
    pub changes: Many<Change>,
}

impl Copies for Change {
    fn copy(&self) -> Result<Change, NoMemory> {
        match self {
            Change::Add { path, facts } => {
                let path = path.copy()?;
                let facts = facts.copy()?;
                Ok(Change::Add { path, facts })
            }
            Change::Drop { path } => {
                let path = path.copy()?;
                Ok(Change::Drop { path })
            }
            Change::Move { from, to } => {
                let from = from.copy()?;
                let to = to.copy()?;
                Ok(Change::Move { from, to })
            }
            Change::SetTags { id, tags } => {
                let id = id.copy()?;
                let tags = tags.copy()?;
                Ok(Change::SetTags { id, tags })
            }
        }
    }
}

impl Copies for Commit {
    fn copy(&self) -> Result<Commit, NoMemory> {
        let changes = self.changes.copy()?;
        Ok(Commit { changes })
    }
}
