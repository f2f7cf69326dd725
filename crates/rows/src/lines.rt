//! An answer that is made of lines, as the wanted lines of a `row` are. Every program of rows, as `test_mail`, answers so.

use crate::RowError;
use std::alloc::Global;

/// Lines that are joined by LF: the last one has none. A piece that found no memory is reported once, where the answer is taken, so
/// that a row's program has no way out of each line.
#[derive(Drop)]
pub struct Lines {
    alloc: Global,
    bytes: Vec<u8>,
    begun: bool,
    lacks: bool,
}

impl Lines {
    pub fn new(alloc: Global) -> Lines {
        Lines {
            alloc,
            bytes: Vec::new(alloc),
            begun: false,
            lacks: false,
        }
    }

    /// Begins a line.
    pub fn begin(&mut self) {
        if self.begun {
            self.push(b"\n");
        }
        self.begun = true;
    }

    /// Goes on with the line.
    pub fn push(&mut self, bytes: &[u8]) {
        if self.bytes.extend_from_slice(bytes).is_err() {
            self.lacks = true;
        }
    }

    /// Goes on with the line by a number in decimal digits.
    pub fn push_number(&mut self, number: u64) {
        match number.to_string(self.alloc) {
            Ok(digits) => self.push(digits.as_bytes()),
            Err(_) => self.lacks = true,
        }
    }

    /// Goes on with the line by a blank and the bytes, where there are some.
    pub fn push_after_blank(&mut self, bytes: &[u8]) {
        if !bytes.is_empty() {
            self.push(b" ");
            self.push(bytes);
        }
    }

    /// A whole line.
    pub fn line(&mut self, bytes: &[u8]) {
        self.begin();
        self.push(bytes);
    }

    /// A whole line of two texts.
    pub fn line_of(&mut self, first: &[u8], second: &[u8]) {
        self.line(first);
        self.push(second);
    }

    /// A line of the text without the LF at its end, or of a dash where there is no text.
    pub fn text(&mut self, text: &[u8]) {
        match text {
            [] => self.line(b"-"),
            [text @ .., b'\n'] => self.line(text),
            text => self.line(text),
        }
    }

    /// The answer, where no piece was lost.
    pub fn into_bytes(self) -> Result<Vec<u8>, RowError> {
        let Lines {
            alloc: _,
            bytes,
            begun: _,
            lacks,
        } = self;
        if lacks {
            return Err(RowError::NoMemory);
        }
        Ok(bytes)
    }
}
