//! Numbers in groups of seven bits: `block` writes each hit as three, and `unpack` reads them.

ghost use Rattle.std.specs.Prelude.{◌≡◌, ◌++◌, ◌∷◌, ◌+◌, ◌≤◌, length};
ghost use Rattle.nm_blocks.specs.Numbers.{number_at, number_bytes};

use crate::draft::Draft;

/// Adds a number, in the fewest bytes.
pub fn put_number(draft: &mut Draft, number: u32)
    requires { length draft.old + 5 ≤ 2049 }
    ensures { draft.new ≡ draft.old ++ number_bytes number }
{
    let mut rest = number;
    'groups: while rest >= 128 {
        draft.push((rest % 128) as u8 + 128);
        rest /= 128;
    }
    draft.push(rest as u8);
}

/// The number at the front of bytes, and the bytes after it.
#[inline]
#[cycle(groups)]
#[tactic(auto, using(crate::proofs::NumberLemmas::reading))]
pub fn take_number(bytes: &[u8]) -> (u32, &[u8])
    ensures number { result.0 ≡ (number_at bytes.now).0 }
    ensures rest { result.1.now ≡ (number_at bytes.now).1 }
{
    match bytes.split_first() {
        None => (0, bytes),
        Some((byte, rest)) => {
            if *byte < 128 {
                return (u32::from(*byte), rest);
            }
            take_long(*byte, rest)
        }
    }
}

// Few numbers have more than one byte, so this is by itself and `take_number` is short.
#[inline(never)]
#[cycle(groups)]
#[tactic(auto, using(crate::proofs::NumberLemmas::reading))]
fn take_long(byte: u8, rest: &[u8]) -> (u32, &[u8])
    requires { 128 ≤ byte }
    ensures number { result.0 ≡ (number_at (byte ∷ rest.now)).0 }
    ensures rest { result.1.now ≡ (number_at (byte ∷ rest.now)).1 }
{
    let (higher, rest) = take_number(rest);
    (
        higher
            .saturating_mul(128)
            .saturating_add(u32::from(byte - 128)),
        rest,
    )
}
