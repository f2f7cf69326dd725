//! How results are printed (`nm_render`), and how dumps are written and read (`nm_dump`). `nm_command` reads these
//! from options.

use crate::{Copies, NoMemory};

/// What is printed or counted of the messages that match.
#[derive(Clone, Copy, PartialEq, Eq)]
pub enum Output {
    Summary,
    Threads,
    Messages,
    Files,
    Tags,
}

/// How a dump is written.
#[derive(Clone, Copy)]
pub enum DumpForm {
    /// A line of tag changes and the id.
    BatchTag,
    /// The id, and the tags in parentheses.
    Sup,
}

/// How a dump is read.
#[derive(Clone, Copy)]
pub enum ReadForm {
    /// The first line tells.
    Auto,
    BatchTag,
    Sup,
}

impl Copies for Output {
    fn copy(&self) -> Result<Output, NoMemory> {
        Ok(*self)
    }
}

impl Copies for DumpForm {
    fn copy(&self) -> Result<DumpForm, NoMemory> {
        Ok(*self)
    }
}

impl Copies for ReadForm {
    fn copy(&self) -> Result<ReadForm, NoMemory> {
        Ok(*self)
    }
}
