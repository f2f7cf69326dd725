//! A stream of std whose calls go as the lines `?` of a row say, for `stream_rows`.

use rows::{Row, RowLine, named};
use std::alloc::Global;
use std::io::{self, ErrorKind, Read, Write};
use std::slice::Iter;

/// What each call on the stream does, in the lines that are left, and the bytes that it took.
#[derive(Drop)]
pub struct Script<'a> {
    lines: Iter<'a, RowLine<'a>>,
    pub held: Vec<u8>,
}

/// How a call fails.
const FAULTS: [(&[u8], ErrorKind); 2] = [
    (b"interrupted", ErrorKind::Interrupted),
    (b"failed", ErrorKind::PermissionDenied),
];

impl<'a> Script<'a> {
    /// A line `interrupted` or `failed` is a call that fails so. Of a read another line is what it gives; of a write it is as
    /// long as what is taken. When the lines are over, nothing more is given or taken.
    pub fn of(alloc: Global, row: &'a Row<'a>) -> Script<'a> {
        Script {
            lines: row.lines.as_slice().iter(),
            held: Vec::new(alloc),
        }
    }

    /// What the next call does, or why it fails.
    fn next_call(&mut self) -> io::Result<&'a [u8]> {
        let call = self.next_line();
        match named(&FAULTS, call) {
            Ok(kind) => Err(io::Error::from(kind)),
            Err(_) => Ok(call),
        }
    }

    fn next_line(&mut self) -> &'a [u8] {
        match self.lines.find(|line| line.mark == b"?".as_slice()) {
            Some(line) => line.bytes.as_slice(),
            None => b"",
        }
    }
}

impl Read for Script<'_> {
    fn read(&mut self, buf: &mut [u8]) -> io::Result<usize> {
        let given = self.next_call()?;
        let count = given.len().min(buf.len());
        buf[..count].copy_from_slice(&given[..count]);
        Ok(count)
    }
}

impl Write for Script<'_> {
    fn write(&mut self, buf: &[u8]) -> io::Result<usize> {
        let count = self.next_call()?.len().min(buf.len());
        match self.held.extend_from_slice(&buf[..count]) {
            Ok(()) => Ok(count),
            Err(_) => Err(io::Error::from(ErrorKind::OutOfMemory)),
        }
    }

    fn flush(&mut self) -> io::Result<()> {
        self.next_call()?;
        Ok(())
    }
}
