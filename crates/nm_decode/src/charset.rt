//! Bytes as text by their charset: bodies in `nm_extract` and encoded words in `decodes` end here.

ghost use Rattle.std.specs.Prelude.{◌≡◌, take, length, IfOk, ◌<◌, ◌≤◌};
ghost use Rattle.std.specs.Str.{IsAscii};
ghost use Rattle.nm_decode.specs.Charsets.{charset_of, char_in, single_byte_text, text_in, text_of};

use nm_base::{NoMemory, Text};
use nm_text::{as_text, lossy_text, same_ignoring_case};
use std::alloc::Global;

/// The charsets that are told apart: every other label is read as ASCII.
#[derive(Clone, Copy)]
pub enum Charset {
    Ascii,
    Latin1,
    Utf8,
}

/// The text of the bytes under a charset's label (RFC 2046, section 4.1.2), without ASCII case:
/// `utf-8` and `utf8`, `iso-8859-1` and `latin1`. Every other label is ASCII. Damage is U+FFFD.
pub fn charset_text(alloc: Global, bytes: &[u8], label: &str) -> Result<Text, NoMemory>
    ensures { IfOk result (λ text. text ≡ text_of bytes.now label.now) }
{
    text_in(alloc, charset_of(label.as_bytes()), bytes)
}

/// The charset of a label: one row a charset.
pub(crate) fn charset_of(label: &[u8]) -> Charset
    ensures { result ≡ charset_of label.now }
{
    if same_ignoring_case(label, b"utf-8") || same_ignoring_case(label, b"utf8") {
        return Charset::Utf8;
    }
    if same_ignoring_case(label, b"iso-8859-1") || same_ignoring_case(label, b"latin1") {
        return Charset::Latin1;
    }
    Charset::Ascii
}

/// The character of a byte: one row a charset.
fn char_in(charset: Charset, byte: u8) -> char
    ensures { result ≡ char_in charset byte }
{
    match charset {
        Charset::Latin1 => char::from(byte),
        _ => {
            if byte < 128 {
                char::from(byte)
            } else {
                '\u{FFFD}'
            }
        }
    }
}

pub(crate) fn text_in(alloc: Global, charset: Charset, bytes: &[u8]) -> Result<Text, NoMemory>
    ensures { IfOk result (λ text. text ≡ text_in charset bytes.now) }
{
    match charset {
        Charset::Utf8 => lossy_text(alloc, bytes),
        _ => decode_single_byte(alloc, charset, bytes),
    }
}

/// Runs of ASCII go over at once.
fn decode_single_byte(alloc: Global, charset: Charset, bytes: &[u8]) -> Result<Text, NoMemory>
    ensures { IfOk result (λ text. text ≡ single_byte_text charset bytes.now) }
{
    let mut text = String::with_capacity(alloc, bytes.len())?;
    let mut rest = bytes;
    'runs: loop {
        let (run, after) = rest.split_at(ascii_len(rest));
        text.push_str(as_text(run))?;
        let Some((byte, more)) = after.split_first() else {
            return Ok(Text::from_string(text)?);
        };
        text.push(char_in(charset, *byte))?;
        rest = more;
    }
}

/// How many bytes from the front on are ASCII.
fn ascii_len(bytes: &[u8]) -> usize
    ensures within { result ≤ length bytes.now }
    ensures ascii { IsAscii (take result bytes.now) }
{
    for (at, byte) in bytes.iter().enumerate() {
        if *byte >= 128 {
            return at;
        }
    }
    bytes.len()
}
