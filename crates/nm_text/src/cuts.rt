//! The first place of a byte, and texts cut there: `lines`, the decoders of `nm_decode`, and `nm_command` for options.

ghost use Rattle.std.specs.Prelude.{◌≡◌, [], ◌∷◌, ◌<◌, ◌≤◌, length, IfSome, IsUtf8, MatchOption};
ghost use Rattle.std.specs.List.{after_first, before_first, position_or_len, slice_split};
ghost use Rattle.nm_text.specs.Cuts.{begins_with, ends_with, is_byte};

use bstr::ByteSlice;

/// Whether this byte comes first.
pub fn begins_with(byte: u8, text: &[u8]) -> bool
    ensures { result ≡ begins_with byte text.now }
{
    match text {
        [] => false,
        [first, ..] => *first == byte,
    }
}

/// Whether this byte comes last.
pub fn ends_with(byte: u8, text: &[u8]) -> bool
    ensures { result ≡ ends_with byte text.now }
{
    text.last_byte() == Some(byte)
}

/// The first place of a byte, or the length where it isn't there.
pub fn first_place(bytes: &[u8], wanted: u8) -> usize
    ensures place { result ≡ position_or_len (is_byte wanted) bytes.now }
    ensures within { result ≤ length bytes.now }
{
    bytes.find_byte(wanted).unwrap_or(bytes.len())
}

/// What comes before the first such ASCII character and what comes after it.
pub fn cut_at(text: &str, wanted: u8) -> Option<(&str, &str)>
    requires { wanted < 128 }
    ensures place { MatchOption result (length text.now ≤ position_or_len (is_byte wanted) text.now)
        (λ cut. position_or_len (is_byte wanted) text.now < length text.now) }
    ensures front { IfSome result (λ cut. cut.0.now ≡ before_first (is_byte wanted) text.now) }
    ensures back { IfSome result (λ cut. cut.1.now ≡ after_first (is_byte wanted) text.now) }
    ensures split { MatchOption result (slice_split (is_byte wanted) text.now ≡ text.now ∷ [])
        (λ cut. slice_split (is_byte wanted) text.now ≡ cut.0.now ∷ slice_split (is_byte wanted) cut.1.now) }
    ensures shorter { IfSome result (λ cut. length cut.1.now < length text.now) }
    ensures text { IfSome result (λ cut. IsUtf8 cut.0.now × IsUtf8 cut.1.now) }
{
    let at = first_place(text.as_bytes(), wanted);
    if at == text.len() {
        return None;
    }
    Some((&text[..at], &text[at + 1..]))
}

/// What comes before the first such byte, or all.
pub fn before_first(bytes: &[u8], wanted: u8) -> &[u8]
    ensures value { result.now ≡ before_first (is_byte wanted) bytes.now }
    ensures text { wanted < 128 → IsUtf8 bytes.now → IsUtf8 result.now }
{
    &bytes[..first_place(bytes, wanted)]
}

/// What comes after the first such byte, or nothing.
pub fn after_first(bytes: &[u8], wanted: u8) -> &[u8]
    ensures value { result.now ≡ after_first (is_byte wanted) bytes.now }
    ensures within { length result.now ≤ length bytes.now }
    ensures text { wanted < 128 → IsUtf8 bytes.now → IsUtf8 result.now }
{
    let at = first_place(bytes, wanted);
    if at == bytes.len() {
        return &bytes[at..];
    }
    let (_, after) = bytes.split_at(at + 1);
    after
}
