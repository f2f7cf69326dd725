//! How what is read of a mail is shown, for `header_rows`, `mail_rows`, `part_rows` and others.

use nm_base::{Mailbox, Many, MessageId, NoMemory, Text, WordList};
use rows::{Lines, RowError};

/// What a line can show.
pub trait Shown {
    /// Goes on with the line by what it is.
    fn push(&self, lines: &mut Lines);
}

/// Shows what was found in a line of its own.
pub fn show<T: Shown + Drop>(
    found: Result<T, NoMemory>,
    lines: &mut Lines,
) -> Result<(), RowError> {
    match found {
        Ok(found) => {
            lines.begin();
            found.push(lines);
            Ok(())
        }
        Err(NoMemory) => Err(RowError::NoMemory),
    }
}

/// Shows each that was found in a line of its own.
pub fn show_each<T: Shown + Drop>(
    found: Result<Many<T>, NoMemory>,
    front: &[u8],
    lines: &mut Lines,
) -> Result<(), RowError> {
    match found {
        Ok(list) => {
            push_lines(list.as_slice(), front, lines);
            Ok(())
        }
        Err(NoMemory) => Err(RowError::NoMemory),
    }
}

/// A line for each of the list, after the front.
pub fn push_lines<T: Shown>(list: &[T], front: &[u8], lines: &mut Lines) {
    'list: for item in list {
        lines.line(front);
        item.push(lines);
    }
}

/// A line of the front and all of the list, with a blank before each.
pub fn push_line<T: Shown>(list: &[T], front: &[u8], lines: &mut Lines) {
    lines.line(front);
    'list: for item in list {
        lines.push(b" ");
        item.push(lines);
    }
}

impl Shown for Many<u8> {
    fn push(&self, lines: &mut Lines) {
        lines.push(self.as_slice());
    }
}

impl Shown for Text {
    fn push(&self, lines: &mut Lines) {
        lines.push(self.as_bytes());
    }
}

impl Shown for MessageId {
    fn push(&self, lines: &mut Lines) {
        lines.push(self.text().as_bytes());
    }
}

/// `NAME <ADDRESS>`, or `<ADDRESS>` where the name is empty.
impl Shown for Mailbox {
    fn push(&self, lines: &mut Lines) {
        let name = self.name.as_bytes();
        if !name.is_empty() {
            lines.push(name);
            lines.push(b" ");
        }
        lines.push(b"<");
        lines.push(self.address.as_bytes());
        lines.push(b">");
    }
}

impl Shown for WordList {
    fn push(&self, lines: &mut Lines) {
        push_words(self, lines);
    }
}

/// Goes on with the line by the words, parted by blanks.
fn push_words(list: &WordList, lines: &mut Lines) {
    let mut words = list.words();
    let mut gap: &[u8] = b"";
    'words: while let Some(word) = words.take_first() {
        lines.push(gap);
        lines.push(word);
        gap = b" ";
    }
}
