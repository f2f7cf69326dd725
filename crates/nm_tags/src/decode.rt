//! What an encoded tag represents: `batch` reads words of lines with it, and `nm_dump` the ids of a dump.

ghost use Rattle.std.specs.Prelude.{◌≡◌, ◌<◌, [], ◌∷◌, true, false, length, IfOk, IfSome, IsErr, MatchOption, None, Some, Ok};
ghost use Rattle.std.specs.Str.{is_utf8};
ghost use Rattle.hex.specs.Hex.{decode_of};
ghost use Rattle.nm_tags.specs.Decoding.{decoded_bytes, decoded_tag, joined, tag_of_bytes};

use nm_base::{Many, NoMemory, Tag, Text};
use std::alloc::Global;

/// The tag that is written so: `%` and two hex digits of either case are a byte, every other byte represents itself. Nothing
/// where a `%` has no two digits after it, or where the bytes are not UTF-8 or no tag.
pub fn decode_tag(alloc: Global, encoded: &str) -> Result<Option<Tag>, NoMemory>
    ensures { IfOk result (λ tag. tag ≡ decoded_tag encoded.now) }
{
    match decoded_bytes(alloc, encoded.as_bytes())? {
        None => Ok(None),
        Some(bytes) => tag_of(alloc, bytes.as_slice()),
    }
}

fn tag_of(alloc: Global, bytes: &[u8]) -> Result<Option<Tag>, NoMemory>
    ensures { IfOk result (λ tag. tag ≡ tag_of_bytes (Some bytes.now)) }
{
    let Some(text) = text_of(bytes) else {
        return Ok(None);
    };
    match Tag::new(Text::of(alloc, text)?) {
        Ok(tag) => Ok(Some(tag)),
        Err(_) => Ok(None),
    }
}

/// The bytes as a text, where they are one.
pub fn text_of(bytes: &[u8]) -> Option<&str>
    ensures { MatchOption result (is_utf8 bytes.now ≡ false) (λ text. (is_utf8 bytes.now ≡ true) × (text.now ≡ bytes.now)) }
{
    match str::from_utf8(bytes) {
        Ok(text) => Some(text),
        Err(_) => None,
    }
}

#[tactic(auto, using(crate::proofs::DecodeLemmas::joined_one_more))]
fn decoded_bytes(alloc: Global, encoded: &[u8]) -> Result<Option<Many<u8>>, NoMemory>
    ensures { IfOk result (λ bytes. bytes ≡ decoded_bytes encoded.now) }
{
    let mut decoded = Many::new(alloc);
    let mut rest = encoded;
    'bytes: while !rest.is_empty() {
        match next_byte(rest) {
            None => return Ok(None),
            Some((byte, more)) => {
                decoded.push(byte)?;
                rest = more;
            }
        }
    }
    Ok(Some(decoded))
}

/// The first byte that is said, and the text after; nothing where a `%` has no two digits after it.
fn next_byte(encoded: &[u8]) -> Option<(u8, &[u8])>
    requires { 0 < length encoded.now }
    ensures value { MatchOption result (decoded_bytes encoded.now ≡ None) (λ cut. decoded_bytes encoded.now ≡ joined (Ok (cut.0 ∷ [])) (decoded_bytes cut.1.now)) }
    ensures shorter { IfSome result (λ cut. length cut.1.now < length encoded.now) }
{
    let byte = encoded[0];
    if byte != b'%' {
        return Some((byte, &encoded[1..]));
    }
    if encoded.len() < 3 {
        return None;
    }
    let byte = byte_of(&encoded[1..3])?;
    Some((byte, &encoded[3..]))
}

/// The byte of two hex digits.
fn byte_of(digits: &[u8]) -> Option<u8>
    requires { length digits.now ≡ 2 }
    ensures { MatchOption result (IsErr (decode_of digits.now)) (λ byte. decode_of digits.now ≡ Ok (byte ∷ [])) }
{
    let mut byte = [0; 1];
    match hex::decode_to_slice(digits, &mut byte) {
        Ok(()) => Some(byte[0]),
        Err(_) => None,
    }
}
