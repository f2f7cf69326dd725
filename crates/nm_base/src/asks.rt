//! What each command was asked. `nm_command` reads it from words, a `Request` of `nm_model_answer` has one, and
//! `nm_session` answers it.

use crate::{Copies, DumpForm, Many, NoMemory, Output, ReadForm, TagOp, Text};

/// What `search` was asked.
#[derive(Clone, Drop)]
pub struct SearchAsk {
    pub json: bool,
    pub output: Output,
    /// Whether the oldest come first.
    pub oldest: bool,
    /// How many are passed over.
    pub offset: u32,
    /// How many are reported at most.
    pub limit: Option<u32>,
    /// Whether messages with an excluded tag are left out.
    pub exclude: bool,
    pub query: Text,
}

/// What `count` was asked.
#[derive(Clone, Drop)]
pub struct CountAsk {
    pub output: Output,
    /// Whether messages with an excluded tag are left out.
    pub exclude: bool,
    /// Whether the queries come from the input, one a line.
    pub batch: bool,
    pub query: Text,
}

/// What `show` was asked.
#[derive(Clone, Drop)]
pub struct ShowAsk {
    /// Whether the file is shown as it is.
    pub raw: bool,
    /// Whether messages with an excluded tag are left out.
    pub exclude: bool,
    pub query: Text,
}

/// What `tag` was asked.
#[derive(Clone, Drop)]
pub struct TagAsk {
    /// Whether all tags are taken off first.
    pub clear: bool,
    /// Whether the changes and queries come from the input, one a line.
    pub batch: bool,
    pub ops: Many<TagOp>,
    pub query: Text,
}

/// What `dump` was asked.
#[derive(Clone, Drop)]
pub struct DumpAsk {
    pub form: DumpForm,
    pub query: Text,
}

/// What `restore` was asked.
#[derive(Clone, Copy)]
pub struct RestoreAsk {
    pub form: ReadForm,
    /// Whether the tags that a message has stay.
    pub accumulate: bool,
}

impl Copies for SearchAsk {
    fn copy(&self) -> Result<SearchAsk, NoMemory> {
        Ok(self.clone()?)
    }
}

impl Copies for CountAsk {
    fn copy(&self) -> Result<CountAsk, NoMemory> {
        Ok(self.clone()?)
    }
}

impl Copies for ShowAsk {
    fn copy(&self) -> Result<ShowAsk, NoMemory> {
        Ok(self.clone()?)
    }
}

impl Copies for TagAsk {
    fn copy(&self) -> Result<TagAsk, NoMemory> {
        Ok(self.clone()?)
    }
}

impl Copies for DumpAsk {
    fn copy(&self) -> Result<DumpAsk, NoMemory> {
        Ok(self.clone()?)
    }
}

impl Copies for RestoreAsk {
    fn copy(&self) -> Result<RestoreAsk, NoMemory> {
        Ok(*self)
    }
}
