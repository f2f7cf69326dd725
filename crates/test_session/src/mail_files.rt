//! The mail files of the sessions of a row, and the trees that they are seen as, for `sessions`.

use crate::row_lines::{add_numbers, line_of};
use nm_base::{Copies, MailPath, Many, NoMemory, Text};
use nm_maildir::StillTree;
use rows::{Lines, RowError, RowLine, cut, number_of, path_of};
use std::alloc::Global;
use std::mem;

/// Where a mail file is, and its bytes.
pub type File = (MailPath, Many<u8>);

/// The mail files of the sessions of a row, one session after the other. What can't be read is noted and reported once, at the
/// end.
#[derive(Drop)]
pub struct MailFiles {
    alloc: Global,
    files: Many<File>,
    fault: Option<RowError>,
}

impl MailFiles {
    pub fn new(alloc: Global) -> MailFiles {
        MailFiles {
            alloc,
            files: Many::new(alloc),
            fault: None,
        }
    }

    /// The trees that the calls of a session find: with a line `shift` as many as it says with the files as they were, and then one
    /// with the files as the lines `goes` and `comes` leave them.
    pub fn trees(&mut self, lines: &[RowLine<'_>]) -> Many<StillTree> {
        let mut trees = Many::new(self.alloc);
        self.change(lines, b"file", b"gone");
        self.add_many(lines);
        self.add_trees(&mut trees, lines);
        self.change(lines, b"comes", b"goes");
        self.add_tree(&mut trees, lines);
        trees
    }

    /// A line with the one mark adds a file, one with the other takes the file of its path away.
    fn change(&mut self, lines: &[RowLine<'_>], adds: &[u8], removes: &[u8]) {
        'lines: for line in lines {
            self.change_by(line, adds, removes);
        }
    }

    fn change_by(&mut self, line: &RowLine<'_>, adds: &[u8], removes: &[u8]) {
        if line.mark == adds {
            let added = add_file(self.alloc, &mut self.files, line.bytes.as_slice());
            self.note(added);
        } else if line.mark == removes {
            let removed = remove_file(self.alloc, &mut self.files, line.bytes.as_slice());
            self.note(removed);
        }
    }

    /// Adds the files of the line `many`.
    fn add_many(&mut self, lines: &[RowLine<'_>]) {
        if let Some(line) = line_of(lines, b"many") {
            let added = add_many(self.alloc, &mut self.files, line);
            self.note(added);
        }
    }

    fn add_trees(&mut self, trees: &mut Many<StillTree>, lines: &[RowLine<'_>]) {
        match shift(lines) {
            Ok(calls) => self.add_equal_trees(trees, lines, calls),
            Err(error) => self.note(Err(error)),
        }
    }

    fn add_equal_trees(&mut self, trees: &mut Many<StillTree>, lines: &[RowLine<'_>], count: u64) {
        'trees: for _tree in 0..count {
            self.add_tree(trees, lines);
        }
    }

    /// A mail folder with the folders `new` and `cur`, the files, and the folders that these are in.
    fn add_tree(&mut self, trees: &mut Many<StillTree>, lines: &[RowLine<'_>]) {
        let mut dirs = Many::new(self.alloc);
        let listed = add_dirs(self.alloc, &mut dirs, self.files.as_slice());
        self.note(listed);
        let mut failing = Many::new(self.alloc);
        let numbered = add_numbers(&mut failing, lines, b"mail-fails");
        self.note(numbered);
        let added = add_tree(self.alloc, trees, dirs, self.files.copy(), failing);
        self.note(added);
    }

    fn note<E: Into<RowError> + Drop>(&mut self, done: Result<(), E>) {
        if let Err(error) = done {
            self.fault = Some(error.into());
        }
    }

    /// What could not be read.
    pub fn fault(&self) -> Option<RowError> {
        self.fault
    }
}

/// How many calls find the folder as it was.
fn shift(lines: &[RowLine<'_>]) -> Result<u64, RowError> {
    match line_of(lines, b"shift") {
        None => Ok(0),
        Some(calls) => shift_of(calls, lines),
    }
}

fn shift_of(calls: &[u8], lines: &[RowLine<'_>]) -> Result<u64, RowError> {
    match line_of(lines, b"mail-fails") {
        None => number_of(calls),
        Some(_) => Err(RowError::Broken("no call of a folder that shifts can fail")),
    }
}

/// A line has the path of a file, and its bytes after a blank.
fn add_file(alloc: Global, files: &mut Many<File>, line: &[u8]) -> Result<(), RowError> {
    let (at, bytes) = cut(line, b' ');
    let path = path_of(alloc, at)?;
    let bytes = Many::from_slice(alloc, bytes)?;
    Ok(files.push((path, bytes))?)
}

fn remove_file(alloc: Global, files: &mut Many<File>, path: &[u8]) -> Result<(), RowError> {
    let before = files.len();
    let mut kept = mem::replace(files, Many::new(alloc)).into_vec();
    kept.retain(|file| file.0.text().as_bytes() != path);
    *files = Many::from_vec(kept);
    if files.len() == before {
        return Err(RowError::Broken("no such file is there to go"));
    }
    Ok(())
}

/// A line has how many files there are, and their bytes after a blank. The first is `new/1001`, the next `new/1002`; each `#` of the
/// bytes represents the number of the file.
fn add_many(alloc: Global, files: &mut Many<File>, line: &[u8]) -> Result<(), RowError> {
    let (count, bytes) = cut(line, b' ');
    let count = number_of(count)?;
    'files: for file in 0..count {
        add_numbered(alloc, files, file.saturating_add(1001), bytes)?;
    }
    Ok(())
}

fn add_numbered(
    alloc: Global,
    files: &mut Many<File>,
    number: u64,
    bytes: &[u8],
) -> Result<(), RowError> {
    let line = numbered(alloc, number, bytes)?;
    add_file(alloc, files, line.as_slice())
}

/// The line of the file with this number.
fn numbered(alloc: Global, number: u64, bytes: &[u8]) -> Result<Vec<u8>, RowError> {
    let mut line = Lines::new(alloc);
    line.push(b"new/");
    line.push_number(number);
    line.push(b" ");
    push_filled(&mut line, number, bytes);
    line.into_bytes()
}

fn push_filled(line: &mut Lines, number: u64, bytes: &[u8]) {
    // A byte at a time.
    'bytes: for byte in bytes.chunks(1) {
        if byte == b"#".as_slice() {
            line.push_number(number);
        } else {
            line.push(byte);
        }
    }
}

fn add_tree(
    alloc: Global,
    trees: &mut Many<StillTree>,
    dirs: Many<Text>,
    files: Result<Many<File>, NoMemory>,
    failing: Many<u64>,
) -> Result<(), RowError> {
    match files {
        Ok(files) => push_tree(trees, StillTree::of(alloc, dirs, files, failing)),
        Err(NoMemory) => Err(RowError::NoMemory),
    }
}

fn push_tree(
    trees: &mut Many<StillTree>,
    tree: Result<Option<StillTree>, NoMemory>,
) -> Result<(), RowError> {
    match tree {
        Ok(Some(tree)) => Ok(trees.push(tree)?),
        Ok(None) => Err(RowError::Broken("a path stands twice")),
        Err(NoMemory) => Err(RowError::NoMemory),
    }
}

fn add_dirs(alloc: Global, dirs: &mut Many<Text>, files: &[File]) -> Result<(), NoMemory> {
    'files: for file in files {
        add_folders(alloc, dirs, file.0.text().as_str())?;
    }
    add_folders(alloc, dirs, "new/")?;
    add_folders(alloc, dirs, "cur/")
}

/// The folders that a path is in, at most 64; one that occurs twice is one.
fn add_folders(alloc: Global, dirs: &mut Many<Text>, path: &str) -> Result<(), NoMemory> {
    let mut rest = path;
    'levels: for _level in 0..64 {
        let Some((dir, _)) = rest.rsplit_once('/') else {
            return Ok(());
        };
        add_folder(alloc, dirs, dir)?;
        rest = dir;
    }
    Ok(())
}

fn add_folder(alloc: Global, dirs: &mut Many<Text>, dir: &str) -> Result<(), NoMemory> {
    let dir = Text::of(alloc, dir)?;
    dirs.push(dir)
}
