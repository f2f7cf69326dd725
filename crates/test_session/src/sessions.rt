//! The sessions of a row, for `session_rows` and `crash_rows`: a line `then` begins the next one, over the same disk. It has the mail
//! files with which the one before it ended, with those that come by a line `file` or `many`, and without those that go by a line `gone`.

use crate::devices::{Folder, folder_of, gate_of, open_gate};
use crate::mail_files::MailFiles;
use crate::row_lines::{add_numbers, line_of, text_of};
use nm_base::{Many, Text};
use nm_io::{MemSink, MemSource};
use nm_workers::MeetGate;
use rows::{Row, RowError, RowLine, words_of};
use std::alloc::Global;

/// A session with its devices, before it is run.
#[derive(Drop)]
pub struct Session<'a> {
    pub lines: &'a [RowLine<'a>],
    pub words: Many<Text>,
    pub folder: Folder,
    pub disk_fails: Many<u64>,
    pub input: MemSource,
    pub out: MemSink,
    pub err: MemSink,
    pub gate: MeetGate,
}

/// Reads sessions. What can't be read is noted and reported once, where the sessions are taken, so that few places have a way out of
/// all that was read.
#[derive(Drop)]
struct SessionReader<'a> {
    alloc: Global,
    is_program: bool,
    files: MailFiles,
    found: Many<Session<'a>>,
    fault: Option<RowError>,
}

/// A session for each part of a row, whose lines have these marks.
pub fn sessions<'a>(
    alloc: Global,
    row: &'a Row<'a>,
    marks: &[&[u8]],
) -> Result<Vec<Session<'a>>, RowError> {
    row.has_only(marks)?;
    read_sessions(alloc, row)
}

fn read_sessions<'a>(alloc: Global, row: &'a Row<'a>) -> Result<Vec<Session<'a>>, RowError> {
    let mut reader = SessionReader::new(alloc, row.kind);
    'sessions: for lines in row
        .lines
        .as_slice()
        .split(|line| line.mark == b"then".as_slice())
    {
        reader.add(lines);
    }
    reader.finish()
}

impl<'a> SessionReader<'a> {
    fn new(alloc: Global, kind: &[u8]) -> SessionReader<'a> {
        SessionReader {
            alloc,
            is_program: kind == b"program".as_slice(),
            files: MailFiles::new(alloc),
            found: Many::new(alloc),
            fault: None,
        }
    }

    fn add(&mut self, lines: &'a [RowLine<'a>]) {
        let trees = self.files.trees(lines);
        match folder_of(self.is_program, trees) {
            Ok(folder) => self.push(lines, folder),
            Err(error) => self.note(Err(error)),
        }
    }

    fn push(&mut self, lines: &'a [RowLine<'a>], folder: Folder) {
        let session = Session {
            lines,
            words: self.words(lines),
            folder,
            disk_fails: self.numbers(lines, b"disk-fails"),
            input: self.input(lines),
            out: self.sink(lines, b"out-fails"),
            err: self.sink(lines, b"err-fails"),
            gate: self.gate(lines),
        };
        if self.found.push(session).is_err() {
            self.fault = Some(RowError::NoMemory);
        }
    }

    fn note(&mut self, done: Result<(), RowError>) {
        if let Err(error) = done {
            self.fault = Some(error);
        }
    }

    /// What was read, or else the other value.
    fn or<T: Drop>(&mut self, read: Result<T, RowError>, other: T) -> T {
        match read {
            Ok(value) => value,
            Err(error) => {
                self.fault = Some(error);
                other
            }
        }
    }

    /// The words of the call: those of the line `$`, or else the word `session`.
    fn words(&mut self, lines: &[RowLine<'_>]) -> Many<Text> {
        let words = match line_of(lines, b"$") {
            Some(line) => words_of(self.alloc, line),
            None => words_of(self.alloc, b"session"),
        };
        self.or(words, Many::new(self.alloc))
    }

    /// The calls of a device that fail, counted from 1.
    fn numbers(&mut self, lines: &[RowLine<'_>], mark: &[u8]) -> Many<u64> {
        let mut numbers = Many::new(self.alloc);
        let added = add_numbers(&mut numbers, lines, mark);
        self.note(added);
        numbers
    }

    /// The input, which has the script.
    fn input(&mut self, lines: &[RowLine<'_>]) -> MemSource {
        let script = text_of(self.alloc, lines, b"|");
        let script = self.or(script, Vec::new(self.alloc));
        MemSource::new(Many::from_vec(script), self.numbers(lines, b"input-fails"))
    }

    /// An output.
    fn sink(&mut self, lines: &[RowLine<'_>], mark: &[u8]) -> MemSink {
        MemSink::new(self.alloc, self.numbers(lines, mark))
    }

    /// The gate, at which no two seats meet where the row names none.
    fn gate(&mut self, lines: &[RowLine<'_>]) -> MeetGate {
        let gate = gate_of(lines);
        self.or(gate, open_gate())
    }

    fn finish(self) -> Result<Vec<Session<'a>>, RowError> {
        let SessionReader {
            alloc: _,
            is_program: _,
            files,
            found,
            fault,
        } = self;
        match files.fault().or(fault) {
            None => Ok(found.into_vec()),
            Some(error) => Err(error),
        }
    }
}
