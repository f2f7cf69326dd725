//! What the index knows of a mail; `nm_extract` makes it, commits and replies take it.

ghost use Rattle.std.specs.Prelude.{◌≡◌};
ghost use Rattle.nm_base.specs.FieldNumber.{field_number};

use crate::{Copies, Many, MessageId, NoMemory, Text, WordList};

/// Where in a mail a word is.
#[derive(Clone, Copy)]
pub enum Field {
    From,
    To,
    Subject,
    Body,
    Attachment,
}

impl Field {
    /// Its place among the five, from 0.
    pub fn number(self) -> u8
        ensures { result ≡ field_number self }
    {
        match self {
            Field::From => 0,
            Field::To => 1,
            Field::Subject => 2,
            Field::Body => 3,
            Field::Attachment => 4,
        }
    }
}

/// A name and an address; either may be empty.
#[derive(Clone, Drop)]
pub struct Mailbox {
    pub name: Text,
    pub address: Text,
}

/// The words of one text of a mail, in their order.
#[derive(Clone, Drop)]
pub struct FieldWords {
    pub field: Field,
    pub words: WordList,
}

/// What the parts of a mail say of it.
#[derive(Clone, Copy)]
pub struct Marks {
    pub attachment: bool,
    pub signed: bool,
    pub encrypted: bool,
}

/// What the index knows of a mail.
#[derive(Clone, Drop)]
pub struct Facts {
    pub id: MessageId,
    /// The ids of the mails that it answers or names, the own id left out, without repeats.
    pub links: Many<MessageId>,
    /// Seconds since 1970-01-01 00:00:00 UTC.
    pub date: i64,
    pub from: Many<Mailbox>,
    pub to: Many<Mailbox>,
    pub subject: Text,
    pub lists: Many<FieldWords>,
    /// The content type of each part, in order.
    pub types: Many<Text>,
    pub marks: Marks,
}

/// An id, and the ids that its mail links to.
#[derive(Clone, Drop, PartialEq, Eq)]
pub struct LinkRow {
    pub id: MessageId,
    pub links: Many<MessageId>,
}

impl Copies for Mailbox {
    fn copy(&self) -> Result<Mailbox, NoMemory> {
        Ok(self.clone()?)
    }
}

impl Copies for FieldWords {
    fn copy(&self) -> Result<FieldWords, NoMemory> {
        Ok(self.clone()?)
    }
}

impl Copies for Facts {
    fn copy(&self) -> Result<Facts, NoMemory> {
        Ok(self.clone()?)
    }
}

impl Copies for LinkRow {
    fn copy(&self) -> Result<LinkRow, NoMemory> {
        Ok(self.clone()?)
    }
}
