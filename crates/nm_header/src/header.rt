//! The fields of a header, and where the body begins: `nm_mime` reads the mail and each of its parts with it.

ghost use Rattle.std.specs.Prelude.{◌≡◌, ◌+◌, ◌<◌, ◌≤◌, ◌∷◌, ◌++◌, length, map, take, true, IfOk, OnOk};
ghost use Rattle.std.specs.Char.{to_ascii_lowercase};
ghost use Rattle.nm_header.specs.Fields.{begins_field, fields_in, folded_of, header_of, name_of, without_from_line};
ghost use Rattle.nm_header.specs.HeaderLines.{BeginsWithLine, LeavesOf, header_lines};
ghost use Rattle.nm_text.specs.WhiteSpace.{trimmed};

use crate::field_line::{after_colon, begins_field, is_from_line, name_text};
use crate::header_lines::{empty_line_len, folded_line_len, header_line_len};
use nm_base::{Many, NoMemory, Text};
use nm_text::{content, trimmed};
use std::alloc::Global;

/// A field of a header.
#[derive(Drop)]
pub struct HeaderField {
    /// In lower case.
    pub name: Text,
    /// Without line ends, and without white space at either end.
    pub body: Many<u8>,
}

/// The fields of a header in their order, and the place in the bytes where the body begins.
#[derive(Drop)]
pub struct HeaderList {
    pub list: Many<HeaderField>,
    pub rest: usize,
}

/// Reads the header of a mail (RFC 5322, section 2.2). It ends at the first empty line, or with the
/// bytes. Lines that are no field and continue none are skipped, so is a first line of an mbox.
pub fn fields(alloc: Global, bytes: &[u8]) -> Result<HeaderList, NoMemory>
    ensures { IfOk result (λ header. header ≡ header_of bytes.now) }
{
    let mut list = Many::new(alloc);
    let mut left = after_from_line(bytes);
    'lines: while let Some(length) = header_line_len(left) {
        left = add_field(alloc, left, length, &mut list)?;
    }
    let rest = bytes.len() - left.len() + empty_line_len(left);
    Ok(HeaderList { list, rest })
}

fn after_from_line(bytes: &[u8]) -> &[u8]
    ensures fields { fields_in (header_lines result.now) ≡ fields_in (without_from_line (header_lines bytes.now)) }
    ensures leaves { LeavesOf bytes.now result.now }
{
    match header_line_len(bytes) {
        None => bytes,
        Some(length) => {
            let (line, after) = bytes.split_at(length);
            if is_from_line(line) { after } else { bytes }
        }
    }
}

/// Takes the first line, and where it begins a field also those that continue it.
fn add_field<'a>(
    alloc: Global,
    bytes: &'a [u8],
    size: usize,
    list: &mut Many<HeaderField>,
) -> Result<&'a [u8], NoMemory>
    requires { BeginsWithLine bytes.now size }
    ensures fields { IfOk result (λ left. list.new ++ fields_in (header_lines left.now) ≡ list.old ++ fields_in (header_lines bytes.now)) }
    ensures leaves { IfOk result (λ left. LeavesOf bytes.now left.now) }
    ensures less { IfOk result (λ left. length left.now < length bytes.now) }
{
    let (line, after) = bytes.split_at(size);
    if !begins_field(line) {
        return Ok(after);
    }
    let mut joined = Many::from_slice(alloc, after_colon(line))?;
    let left = join_folded(after, &mut joined)?;
    list.push(field_of(alloc, line, joined.as_slice())?)?;
    Ok(left)
}

/// Joins the lines that continue a field, without their ends, and answers what follows them.
fn join_folded<'a>(bytes: &'a [u8], joined: &mut Many<u8>) -> Result<&'a [u8], NoMemory>
    ensures joined { OnOk result (joined.new ≡ joined.old ++ folded_of (header_lines bytes.now)) }
    ensures fields { IfOk result (λ left. fields_in (header_lines left.now) ≡ fields_in (header_lines bytes.now)) }
    ensures leaves { IfOk result (λ left. LeavesOf bytes.now left.now) }
{
    let mut left = bytes;
    'folded: while let Some(length) = folded_line_len(left) {
        let (line, after) = left.split_at(length);
        joined.extend_from_slice(content(line))?;
        left = after;
    }
    Ok(left)
}

fn field_of(alloc: Global, line: &[u8], joined: &[u8]) -> Result<HeaderField, NoMemory>
    requires { begins_field line.now ≡ true }
    ensures { IfOk result (λ field. field ≡ record { name = map to_ascii_lowercase (name_of line.now); body = trimmed joined.now }) }
{
    let name = name_text(alloc, line)?;
    let body = Many::from_slice(alloc, trimmed(joined))?;
    Ok(HeaderField { name, body })
}
