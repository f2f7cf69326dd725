//! Rows on the parts of a mail, for `answers`.

use crate::question::Question;
use crate::shown::{Shown, push_lines};
use nm_base::NoMemory;
use nm_mime::{Encoding, Part, Role, parts};
use rows::{Lines, RowError};

/// What a row asks of the parts.
#[derive(Clone, Copy)]
pub enum OfParts {
    Bytes,
    Fields,
    Last,
}

pub fn push(kind: OfParts, question: &Question<'_>, lines: &mut Lines) -> Result<(), RowError> {
    match parts(question.alloc, question.input()) {
        Ok(parts) => {
            push_parts(kind, parts.as_slice(), question.input(), lines);
            Ok(())
        }
        Err(NoMemory) => Err(RowError::NoMemory),
    }
}

fn push_parts(kind: OfParts, parts: &[Part], mail: &[u8], lines: &mut Lines) {
    match kind {
        OfParts::Bytes => push_each(parts, mail, lines),
        OfParts::Fields => push_lines(parts, b"", lines),
        OfParts::Last => push_last(parts, lines),
    }
}

/// A line `DEPTH TYPE ROLE: BYTES` for each part; the bytes of an opened part are its children's.
fn push_each(parts: &[Part], mail: &[u8], lines: &mut Lines) {
    'parts: for part in parts {
        lines.begin();
        lines.push_number(u64::from(part.depth));
        lines.push(b" ");
        push_kind(part, lines);
        push_bytes(part, mail, lines);
    }
}

/// `TYPE ROLE`.
fn push_kind(part: &Part, lines: &mut Lines) {
    lines.push(part.kind.as_bytes());
    lines.push(role_name(part.role));
}

fn role_name(role: Role) -> &'static [u8] {
    match role {
        Role::Opened => b" opened",
        Role::Readable => b" readable",
        Role::Unread => b" unread",
        Role::Signature => b" signature",
    }
}

fn push_bytes(part: &Part, mail: &[u8], lines: &mut Lines) {
    if part.role == Role::Opened {
        return;
    }
    match mail.get(part.from..part.to) {
        Some(bytes) => {
            lines.push(b":");
            lines.push_after_blank(bytes);
        }
        None => lines.push(b" outside of the mail"),
    }
}

/// `TYPE ROLE, ENCODING, charset LABEL, attachment, filename NAME`: the last three where they are there.
impl Shown for Part {
    fn push(&self, lines: &mut Lines) {
        push_kind(self, lines);
        push_encoding(self, lines);
        push_disposition(self, lines);
    }
}

fn push_encoding(part: &Part, lines: &mut Lines) {
    lines.push(encoding_name(part.encoding));
    let charset = part.charset.as_bytes();
    if !charset.is_empty() {
        lines.push(b", charset ");
        lines.push(charset);
    }
}

fn encoding_name(encoding: Encoding) -> &'static [u8] {
    match encoding {
        Encoding::Plain => b", not encoded",
        Encoding::Quoted => b", quoted-printable",
        Encoding::Base64 => b", base64",
    }
}

fn push_disposition(part: &Part, lines: &mut Lines) {
    if part.attached {
        lines.push(b", attachment");
    }
    if let Some(name) = &part.filename {
        lines.push(b", filename");
        lines.push_after_blank(name.as_bytes());
    }
}

/// How many parts there are, and the type and role of the last.
fn push_last(parts: &[Part], lines: &mut Lines) {
    lines.line(b"parts ");
    lines.push_number(parts.len() as u64);
    lines.push(b", the last ");
    if let Some(part) = parts.last() {
        push_kind(part, lines);
    }
}
