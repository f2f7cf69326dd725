//! A new folder of the system for a row, filled as its lines `+` say, for `answers` and the rows.

use nm_base::Text;
use rows::{Row, RowError, cut, text_of};
use std::alloc::Global;
use std::io::{self, ErrorKind};
use std::rt::Files;
use std::{env, fs};

/// This many names are tried for a folder that was not there.
const TRIES: u32 = 1_000;

/// A folder that is a row's own.
#[derive(Drop)]
pub struct RealFolder<'a> {
    pub rt: &'a HostRuntime,
    path: Text,
}

impl<'a> RealFolder<'a> {
    /// Makes a folder in that for temporary files.
    pub fn new(rt: &'a HostRuntime) -> Result<RealFolder<'a>, RowError> {
        match new_path(rt) {
            Ok(path) => Ok(RealFolder { rt, path }),
            Err(error) => Err(error),
        }
    }

    pub fn path(&self) -> &str {
        self.path.as_str()
    }

    /// The path of what is in the folder under this path.
    pub fn below(&self, path: &[u8]) -> Result<Text, RowError> {
        let whole = format!(in self.rt.alloc(); "{}/{}", self.path(), text_of(path)?)?;
        Ok(Text::from_string(whole)?)
    }

    /// Makes what the lines `+` of the row say.
    pub fn fill(&self, row: &Row<'_>) -> Result<(), RowError> {
        'lines: for line in row.lines.as_slice() {
            if line.mark == b"+".as_slice() {
                self.put(line.bytes.as_slice())?;
            }
        }
        Ok(())
    }

    /// `PATH/` is a folder, `PATH -> PATH` a link, and `PATH TEXT` a file.
    fn put(&self, line: &[u8]) -> Result<(), RowError> {
        let (path, rest) = cut(line, b' ');
        let rest = text_of(rest)?;
        match self.below(path) {
            Ok(place) => is_done(put_at(self.rt, place.as_str(), rest)),
            Err(error) => Err(error),
        }
    }

    pub fn remove(&self) -> Result<(), RowError> {
        is_done(fs::remove_dir_all(self.rt, self.path()))
    }
}

/// What the system says where a row cannot be set up.
pub fn refused(_: io::Error) -> RowError {
    RowError::Broken("the system refused what the row needs")
}

fn is_done(answer: io::Result<()>) -> Result<(), RowError> {
    answer.map_err(refused)
}

/// The two texts after one another.
pub fn joined(alloc: Global, front: &str, end: &[u8]) -> Result<Text, RowError> {
    let whole = format!(in alloc; "{}{}", front, text_of(end)?)?;
    Ok(Text::from_string(whole)?)
}

fn new_path(rt: &HostRuntime) -> Result<Text, RowError> {
    match env::temp_dir(rt) {
        Ok(temp) => new_path_in(rt, temp.as_str()),
        Err(error) => Err(refused(error)),
    }
}

fn new_path_in(rt: &HostRuntime, temp: &str) -> Result<Text, RowError> {
    'tries: for number in 0..TRIES {
        let path = numbered(rt.alloc(), temp, number)?;
        if is_new(rt, path.as_str())? {
            return Ok(path);
        }
    }
    Err(RowError::Broken("no name for a new folder is left"))
}

fn numbered(alloc: Global, temp: &str, number: u32) -> Result<Text, RowError> {
    let path = format!(in alloc; "{temp}/test_system_{number}")?;
    Ok(Text::from_string(path)?)
}

/// Makes the folder, where it was not there.
fn is_new(rt: &HostRuntime, path: &str) -> Result<bool, RowError> {
    match fs::create_dir(rt, path) {
        Ok(()) => Ok(true),
        Err(error) if error.kind() == ErrorKind::AlreadyExists => Ok(false),
        Err(error) => Err(refused(error)),
    }
}

fn put_at(rt: &HostRuntime, place: &str, rest: &str) -> io::Result<()> {
    if place.ends_with("/") {
        return fs::create_dir(rt, place);
    }
    match rest.strip_prefix("-> ") {
        Some(target) => rt.symlink(target, place),
        None => fs::write(rt, place, rest),
    }
}
