//! The lines `|` of a row are calls, and each is answered by a line, for `folder_rows`, `disk_rows` and `stream_rows`.

use nm_base::Failed;
use rows::{Lines, Row, RowError};

/// What is called.
pub trait Called {
    /// Answers a call by going on with the line.
    fn call(&mut self, call: &[u8], lines: &mut Lines) -> Result<(), RowError>;
}

/// Makes the calls of a row.
pub fn call_all<C: Called>(
    called: &mut C,
    row: &Row<'_>,
    lines: &mut Lines,
) -> Result<(), RowError> {
    'lines: for line in row.lines.as_slice() {
        if line.mark == b"|".as_slice() {
            lines.begin();
            called.call(line.bytes.as_slice(), lines)?;
        }
    }
    Ok(())
}

/// What a line can show of an answer.
pub trait Shown {
    fn push(&self, lines: &mut Lines);
}

/// Why a call gave nothing.
pub trait Fault {
    /// What the line says of it, or why the row can't go on.
    fn told(self) -> Result<&'static [u8], RowError>;
}

/// Goes on with the line by the answer of a call.
pub fn push_answer<T: Shown + Drop, E: Fault>(
    answer: Result<T, E>,
    lines: &mut Lines,
) -> Result<(), RowError> {
    match answer {
        Ok(found) => found.push(lines),
        Err(error) => lines.push(error.told()?),
    }
    Ok(())
}

impl Shown for () {
    fn push(&self, lines: &mut Lines) {
        lines.push(b"done");
    }
}

impl Shown for u64 {
    fn push(&self, lines: &mut Lines) {
        lines.push_number(*self);
    }
}

impl Fault for Failed {
    fn told(self) -> Result<&'static [u8], RowError> {
        Ok(b"failed")
    }
}
