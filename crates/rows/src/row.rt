//! A row is a paragraph of a table: a head, and marked lines. `run_table` reads it, and programs as `test_mail` ask
//! it for its words.

use crate::{Lines, Paragraph, RowError, unescaped};
use nm_text::{after_first, before_first};
use std::alloc::Global;

/// A row: its head `KIND: NAME`, and its marked lines.
#[derive(Drop)]
pub struct Row<'a> {
    pub number: usize,
    pub kind: &'a [u8],
    pub name: &'a [u8],
    pub lines: Vec<RowLine<'a>>,
}

/// A line of a row: what comes before its first space, and the bytes that the rest represents.
#[derive(Drop)]
pub struct RowLine<'a> {
    pub mark: &'a [u8],
    pub bytes: Vec<u8>,
}

/// Reads the row of a paragraph.
pub fn read_row<'a>(alloc: Global, paragraph: &Paragraph<'a>) -> Result<Row<'a>, RowError> {
    let Some((head, marked)) = paragraph.lines.as_slice().split_first() else {
        return Err(RowError::Broken("no line"));
    };
    let (kind, name) = cut(head, b':');
    if name.is_empty() {
        return Err(RowError::Broken("the first line is not KIND: NAME"));
    }
    let mut lines = Vec::new(alloc);
    'lines: for line in marked {
        let (mark, rest) = cut(line, b' ');
        let bytes = unescaped(alloc, rest)?;
        lines.push(RowLine { mark, bytes })?;
    }
    Ok(Row {
        number: paragraph.number,
        kind,
        name: cut(name, b' ').1,
        lines,
    })
}

/// What comes before the first such byte, and what comes after it.
pub fn cut(line: &[u8], byte: u8) -> (&[u8], &[u8]) {
    (before_first(line, byte), after_first(line, byte))
}

impl Row<'_> {
    /// The texts of the lines with this mark, joined by LF.
    pub fn text(&self, alloc: Global, mark: &[u8]) -> Result<Vec<u8>, RowError> {
        let mut lines = Lines::new(alloc);
        'lines: for line in self.lines.as_slice() {
            if line.mark == mark {
                lines.line(line.bytes.as_slice());
            }
        }
        lines.into_bytes()
    }

    /// Whether there is a line with this mark.
    pub fn has(&self, mark: &[u8]) -> bool {
        self.lines.as_slice().iter().any(|line| line.mark == mark)
    }

    /// Refuses a row that has a line with another mark than these.
    pub fn has_only(&self, marks: &[&[u8]]) -> Result<(), RowError> {
        'lines: for line in self.lines.as_slice() {
            if !marks.iter().any(|mark| line.mark == *mark) {
                return Err(RowError::Broken("a line with no such mark"));
            }
        }
        Ok(())
    }

    /// The numbers of the lines with this mark.
    pub fn numbers(&self, alloc: Global, mark: &[u8]) -> Result<Vec<u64>, RowError> {
        let mut numbers = Vec::new(alloc);
        'lines: for line in self.lines.as_slice() {
            if line.mark == mark {
                numbers.push(number_of(line.bytes.as_slice())?)?;
            }
        }
        Ok(numbers)
    }

    /// The number of the first line with this mark, or else `default`.
    pub fn number(&self, mark: &[u8], default: u64) -> Result<u64, RowError> {
        'lines: for line in self.lines.as_slice() {
            if line.mark == mark {
                return number_of(line.bytes.as_slice());
            }
        }
        Ok(default)
    }
}

/// The bytes as a text, where the row has a text there.
pub fn text_of(bytes: &[u8]) -> Result<&str, RowError> {
    match str::from_utf8(bytes) {
        Ok(text) => Ok(text),
        Err(_) => Err(RowError::Broken("not UTF-8 where the row has a text")),
    }
}

/// The bytes as a number, where the row has a number there.
pub fn number_of(bytes: &[u8]) -> Result<u64, RowError> {
    match text_of(bytes)?.parse::<u64>() {
        Ok(number) => Ok(number),
        Err(_) => Err(RowError::Broken("no number where the row has one")),
    }
}

/// The same, where the number may be negative.
pub fn signed_of(bytes: &[u8]) -> Result<i64, RowError> {
    match text_of(bytes)?.parse::<i64>() {
        Ok(number) => Ok(number),
        Err(_) => Err(RowError::Broken("no number where the row has one")),
    }
}
