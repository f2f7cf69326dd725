//! Quoted-printable read leniently; `nm_extract` decodes bodies with it, and Q words take its escapes.

ghost use Rattle.std.specs.Prelude.{◌≡◌, ◌≤◌, ◌<◌, ◌++◌, length, IfOk, IfSome, OnOk};
ghost use Rattle.nm_decode.specs.Bytes.{escape_of, hex_of};
ghost use Rattle.nm_text.specs.Cuts.{ends_with};
ghost use Rattle.nm_decode.specs.QuotedPrintable.{line_bytes, quoted_of, unescaped};

use nm_base::{Many, NoMemory};
use nm_text::{ends_with, first_place, line_len, trimmed_end};
use std::alloc::Global;

/// The bytes of a quoted-printable body (RFC 2045, section 6.7), line by line: white space at a line's end is dropped,
/// a `=` at its end takes the line end with it, `=` and two hex digits are a byte, any other `=` represents itself.
pub fn quoted_printable(alloc: Global, bytes: &[u8]) -> Result<Many<u8>, NoMemory>
    ensures { IfOk result (λ many. many ≡ quoted_of bytes.now) }
{
    let mut out = Vec::with_capacity(alloc, bytes.len())?;
    let mut rest = bytes;
    'lines: while !rest.is_empty() {
        let (line, more) = rest.split_at(line_len(rest));
        push_line(&mut out, line)?;
        rest = more;
    }
    Ok(Many::from_vec(out))
}

fn push_line(out: &mut Vec<u8>, line: &[u8]) -> Result<(), NoMemory>
    ensures { OnOk result (out.new.items ≡ out.old.items ++ line_bytes line.now) }
{
    let content = trimmed_end(line);
    if ends_with(b'=', content) {
        return push_unescaped(out, &content[..content.len() - 1]);
    }
    push_unescaped(out, content)?;
    if ends_with(b'\n', line) {
        out.push(b'\n')?;
    }
    Ok(())
}

/// Runs of bytes that represent themselves go over at once.
pub(crate) fn push_unescaped(out: &mut Vec<u8>, text: &[u8]) -> Result<(), NoMemory>
    ensures { OnOk result (out.new.items ≡ out.old.items ++ unescaped text.now) }
{
    let mut rest = text;
    'escapes: loop {
        let (run, after) = rest.split_at(first_place(rest, b'='));
        out.extend_from_slice(run)?;
        let Some((equals, more)) = after.split_first() else {
            return Ok(());
        };
        match escape(more) {
            Some(byte) => {
                out.push(byte)?;
                rest = &more[2..];
            }
            None => {
                out.push(*equals)?;
                rest = more;
            }
        }
    }
}

/// The byte of the two hex digits with which a text begins.
pub(crate) fn escape(text: &[u8]) -> Option<u8>
    ensures value { result ≡ escape_of text.now }
    ensures room { IfSome result (λ _. 2 ≤ length text.now) }
{
    let [high, low, ..] = text else {
        return None;
    };
    let high = hex(*high)?;
    let low = hex(*low)?;
    Some(high * 16 + low)
}

fn hex(byte: u8) -> Option<u8>
    ensures value { result ≡ hex_of byte }
    ensures small { IfSome result (λ digit. digit < 16) }
{
    match byte {
        b'0'..=b'9' => Some(byte - 48),
        b'A'..=b'F' => Some(byte - 55),
        b'a'..=b'f' => Some(byte - 87),
        _ => None,
    }
}
