//! What a row asks: `answers` makes it, and the rows beside it answer it.

use rows::{Row, RowError, text_of};
use std::alloc::Global;

/// A row, and what its lines `|` are.
#[derive(Drop)]
pub struct Question<'a> {
    pub alloc: Global,
    pub row: &'a Row<'a>,
    input: Vec<u8>,
}

impl<'a> Question<'a> {
    pub fn of(alloc: Global, row: &'a Row<'a>) -> Result<Question<'a>, RowError> {
        match row.text(alloc, b"|") {
            Ok(input) => Ok(Question { alloc, row, input }),
            Err(error) => Err(error),
        }
    }

    pub fn input(&self) -> &[u8] {
        self.input.as_slice()
    }

    /// The input where it is a text.
    pub fn text(&self) -> Result<&str, RowError> {
        text_of(self.input())
    }

    /// What the line `?` says more.
    pub fn asked(&self) -> Result<&str, RowError> {
        text_of(self.asked_bytes())
    }

    fn asked_bytes(&self) -> &[u8] {
        'lines: for line in self.row.lines.as_slice() {
            if line.mark == b"?".as_slice() {
                return line.bytes.as_slice();
            }
        }
        b""
    }
}
