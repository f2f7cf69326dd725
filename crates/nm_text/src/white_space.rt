//! White space, and texts without it: `nm_header` trims fields and ids, `nm_mime` parameters, and `nm_query` skips it.

ghost use Rattle.std.specs.Prelude.{◌≡◌, ◌-◌, ◌≤◌, IfOk, length};
ghost use Rattle.std.specs.List.{prefix_len, suffix_len};
ghost use Rattle.nm_base.specs.Bounds.{is_white_space};
ghost use Rattle.nm_text.specs.WhiteSpace.{is_all_white_space, is_blank, is_printable, trimmed, trimmed_end, trimmed_start, without_white_space};

use crate::utf8::text_of;
use nm_base::{NoMemory, Text};
use std::alloc::Global;

/// Whether it is space, tab, CR or LF.
pub fn is_white_space(b: u8) -> bool
    ensures { result ≡ is_white_space b }
{
    matches!(b, b' ' | b'\t' | b'\r' | b'\n')
}

/// Whether it is a space or a tab.
pub fn is_blank(b: u8) -> bool
    ensures { result ≡ is_blank b }
{
    b == b' ' || b == b'\t'
}

/// Whether it is a printable ASCII character that is no space.
pub fn is_printable(b: u8) -> bool
    ensures { result ≡ is_printable b }
{
    33 <= b && b <= 126
}

/// Whether the bytes are white space alone, or none.
pub fn is_all_white_space(bytes: &[u8]) -> bool
    ensures { result ≡ is_all_white_space bytes.now }
{
    bytes.iter().all(|b| is_white_space(*b))
}

/// The text without its white space.
pub fn without_white_space(alloc: Global, text: &str) -> Result<Text, NoMemory>
    ensures { IfOk result (λ kept. kept ≡ without_white_space text.now) }
{
    let kept = kept_bytes(alloc, text.as_bytes())?;
    text_of(kept)
}

fn kept_bytes(alloc: Global, bytes: &[u8]) -> Result<Vec<u8>, NoMemory>
    ensures { IfOk result (λ kept. kept.items ≡ without_white_space bytes.now) }
{
    let kept: Vec<u8> = bytes
        .iter()
        .copied()
        .filter(|b| !is_white_space(*b))
        .collect(alloc)?;
    Ok(kept)
}

/// The bytes without the white space at either end.
pub fn trimmed(bytes: &[u8]) -> &[u8]
    ensures { result.now ≡ trimmed bytes.now }
{
    trimmed_end(trimmed_start(bytes))
}

/// The bytes without the white space at their front.
pub fn trimmed_start(bytes: &[u8]) -> &[u8]
    ensures value { result.now ≡ trimmed_start bytes.now }
    ensures within { length result.now ≤ length bytes.now }
{
    &bytes[space_len(bytes)..]
}

fn space_len(bytes: &[u8]) -> usize
    ensures value { result ≡ prefix_len is_white_space bytes.now }
    ensures within { result ≤ length bytes.now }
{
    let mut count = 0;
    'spaces: while count < bytes.len() {
        if !is_white_space(bytes[count]) {
            return count;
        }
        count += 1;
    }
    count
}

/// The bytes without the white space at their end.
pub fn trimmed_end(bytes: &[u8]) -> &[u8]
    ensures { result.now ≡ trimmed_end bytes.now }
{
    &bytes[..kept_len(bytes)]
}

fn kept_len(bytes: &[u8]) -> usize
    ensures value { result ≡ length bytes.now - suffix_len is_white_space bytes.now }
    ensures within { result ≤ length bytes.now }
{
    let mut count = bytes.len();
    'spaces: while 0 < count {
        if !is_white_space(bytes[count - 1]) {
            return count;
        }
        count -= 1;
    }
    count
}
