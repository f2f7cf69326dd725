//! Bytes as text, where they are UTF-8: `nm_header`, `nm_decode` and `nm_mime` make their texts with it.

ghost use Rattle.std.specs.Prelude.{◌≡◌, IfOk, IsUtf8};
ghost use Rattle.std.specs.Str.Lossy.{utf8_lossy};

use bstr::ByteSlice;
use nm_base::{NoMemory, Text};
use std::alloc::Global;
use std::borrow::CowStr;

/// The bytes as text that owns them.
pub fn text_of(bytes: Vec<u8>) -> Result<Text, NoMemory>
    requires { IsUtf8 bytes.items }
    ensures { IfOk result (λ text. text ≡ bytes.items) }
{
    match String::from_utf8(bytes) {
        Ok(string) => Ok(Text::from_string(string)?),
        Err(_) => unreachable!(),
    }
}

/// The bytes as text that borrows them.
pub fn as_text(bytes: &[u8]) -> &str
    requires { IsUtf8 bytes.now }
    ensures { result.now ≡ bytes.now }
{
    match str::from_utf8(bytes) {
        Ok(text) => text,
        Err(_) => unreachable!(),
    }
}

/// The bytes as text, with U+FFFD for each maximal part that is damaged.
pub fn lossy_text(alloc: Global, bytes: &[u8]) -> Result<Text, NoMemory>
    ensures { IfOk result (λ text. text ≡ utf8_lossy bytes.now) }
{
    match bytes.to_str_lossy(alloc)? {
        CowStr::Borrowed(text) => Text::of(alloc, text),
        CowStr::Owned(text) => Text::from_string(text),
    }
}
