//! Base64 read leniently; `nm_extract` decodes bodies with it.

ghost use Rattle.std.specs.Prelude.{◌≡◌, ◌+◌, ◌<◌, ◌++◌, IfOk, IfSome, OnOk};
ghost use Rattle.std.specs.List.{before_first};
ghost use Rattle.nm_text.specs.Cuts.{is_byte};
ghost use Rattle.nm_decode.specs.Base64.{base64_of, symbol_of};
ghost use Rattle.nm_decode.specs.GroupSteps.{made};

use nm_base::{Many, NoMemory};
use nm_text::first_place;
use std::alloc::Global;

/// The bytes of a body in base64 (RFC 2045, section 6.8). The first `=` ends the data; what is no symbol is passed
/// over; the spare bits of a last group are ignored, and a last group of one symbol is dropped.
pub fn base64_bytes(alloc: Global, bytes: &[u8]) -> Result<Many<u8>, NoMemory>
    ensures { IfOk result (λ many. many ≡ base64_of bytes.now) }
{
    let data = before_equals(bytes);
    let mut out = Vec::with_capacity(alloc, data.len() / 4 * 3 + 3)?;
    let mut place = 0;
    let mut last = 0;
    'characters: for byte in data {
        let Some(bits) = symbol(*byte) else {
            continue;
        };
        push_made(&mut out, place, last, bits)?;
        place = (place + 1) % 4;
        last = bits;
    }
    Ok(Many::from_vec(out))
}

fn before_equals(bytes: &[u8]) -> &[u8]
    ensures { result.now ≡ before_first (is_byte 61) bytes.now }
{
    &bytes[..first_place(bytes, b'=')]
}

/// The six bits of a symbol.
fn symbol(byte: u8) -> Option<u8>
    ensures value { result ≡ symbol_of byte }
    ensures small { IfSome result (λ bits. bits < 64) }
{
    match byte {
        b'A'..=b'Z' => Some(byte - 65),
        b'a'..=b'z' => Some(byte - 71),
        b'0'..=b'9' => Some(byte + 4),
        b'+' => Some(62),
        b'/' => Some(63),
        _ => None,
    }
}

/// The byte that a symbol at this place of its group completes, with the symbol before it.
fn push_made(out: &mut Vec<u8>, place: u8, last: u8, bits: u8) -> Result<(), NoMemory>
    requires last { last < 64 }
    requires bits { bits < 64 }
    requires place { place < 4 }
    ensures { OnOk result (out.new.items ≡ out.old.items ++ made place last bits) }
{
    match place {
        0 => return Ok(()),
        1 => out.push(last * 4 + bits / 16)?,
        2 => out.push(last % 16 * 16 + bits / 4)?,
        _ => out.push(last % 4 * 64 + bits)?,
    }
    Ok(())
}
