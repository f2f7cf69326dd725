//! What the encoded text of an encoded word says, for `words`.

ghost use Rattle.std.specs.Prelude.{◌≡◌, map, IfOk};
ghost use Rattle.nm_decode.specs.EncodedWords.{b_bytes, is_field, is_q_text, q_bytes, spaced, word_bytes, word_text};

use crate::charset::{charset_of, text_in};
use crate::quoted::{escape, push_unescaped};
use base64::DecodeAllocError;
use base64::engine::general_purpose::STANDARD;
use nm_base::{Many, NoMemory, Text};
use nm_text::{first_place, is_white_space};
use std::alloc::Global;

/// The text of an encoded word by its fields, or none where it doesn't decode.
pub(crate) fn word_text(
    alloc: Global,
    charset: &[u8],
    encoding: &[u8],
    encoded: &[u8],
) -> Result<Option<Text>, NoMemory>
    ensures { IfOk result (λ text. text ≡ word_text charset.now encoding.now encoded.now) }
{
    if !is_field(charset) || !is_field(encoded) {
        return Ok(None);
    }
    let Some(bytes) = word_bytes(alloc, encoding, encoded)? else {
        return Ok(None);
    };
    let label = &charset[..first_place(charset, b'*')];
    Ok(Some(text_in(alloc, charset_of(label), bytes.as_slice())?))
}

fn is_field(field: &[u8]) -> bool
    ensures { result ≡ is_field field.now }
{
    field.iter().all(|byte| !is_white_space(*byte))
}

fn word_bytes(alloc: Global, encoding: &[u8], encoded: &[u8]) -> Result<Option<Many<u8>>, NoMemory>
    ensures { IfOk result (λ bytes. bytes ≡ word_bytes encoding.now encoded.now) }
{
    match encoding {
        [b'B' | b'b'] => b_bytes(alloc, encoded),
        [b'Q' | b'q'] => q_bytes(alloc, encoded),
        _ => Ok(None),
    }
}

fn b_bytes(alloc: Global, encoded: &[u8]) -> Result<Option<Many<u8>>, NoMemory>
    ensures { IfOk result (λ bytes. bytes ≡ b_bytes encoded.now) }
{
    match STANDARD.decode(alloc, encoded) {
        Ok(bytes) => Ok(Some(Many::from_vec(bytes))),
        Err(DecodeAllocError::DecodeError(_)) => Ok(None),
        Err(DecodeAllocError::OutOfMemory) => Err(NoMemory),
    }
}

fn q_bytes(alloc: Global, encoded: &[u8]) -> Result<Option<Many<u8>>, NoMemory>
    ensures { IfOk result (λ bytes. bytes ≡ q_bytes encoded.now) }
{
    if !is_q_text(encoded) {
        return Ok(None);
    }
    let text = spaced_text(alloc, encoded)?;
    let mut out = Vec::with_capacity(alloc, encoded.len())?;
    push_unescaped(&mut out, text.as_slice())?;
    Ok(Some(Many::from_vec(out)))
}

fn spaced_text(alloc: Global, encoded: &[u8]) -> Result<Many<u8>, NoMemory>
    ensures { IfOk result (λ text. text ≡ map spaced encoded.now) }
{
    let text = encoded.iter().map(|byte| spaced(*byte)).collect(alloc)?;
    Ok(Many::from_vec(text))
}

fn spaced(byte: u8) -> u8
    ensures { result ≡ spaced byte }
{
    if byte == b'_' { b' ' } else { byte }
}

fn is_q_text(encoded: &[u8]) -> bool
    ensures { result ≡ is_q_text encoded.now }
{
    let mut rest = encoded;
    'marks: loop {
        let (_, after) = rest.split_at(first_place(rest, b'='));
        let Some((_, more)) = after.split_first() else {
            return true;
        };
        let Some(_) = escape(more) else {
            return false;
        };
        rest = more;
    }
}
