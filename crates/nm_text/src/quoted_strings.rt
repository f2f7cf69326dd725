//! Quoted pairs and quoted strings: `nm_header` reads mailboxes with them, `nm_mime` parameters.

ghost use Rattle.std.specs.Prelude.{◌≡◌, ◌∷◌, ◌<◌, ◌≤◌, IfOk, IsUtf8, length, take, drop};
ghost use Rattle.nm_text.specs.QuotedStrings.{is_special, pairs_of, quoted_len, unquoted, unquoted_pair};

use nm_base::NoMemory;
use std::alloc::Global;

/// How many bytes the first pair has: a `\` and the byte after it, or one byte.
pub fn pair_len(text: &[u8]) -> usize
    requires { 0 < length text.now }
    ensures first { pairs_of text.now ≡ take result text.now ∷ pairs_of (drop result text.now) }
    ensures some { 0 < result }
    ensures within { result ≤ length text.now }
{
    if text[0] != b'\\' {
        return 1;
    }
    if text.len() == 1 {
        return 1;
    }
    2
}

/// Whether the pair is this byte, and no `\` before it.
pub fn is_special(special: u8, pair: &[u8]) -> bool
    ensures { result ≡ is_special special pair.now }
{
    match pair {
        [b] => *b == special,
        _ => false,
    }
}

/// How many bytes there are up to the `"` that closes a quoted string, and with it.
pub fn quoted_len(text: &[u8]) -> usize
    ensures value { result ≡ quoted_len text.now }
    ensures within { result ≤ length text.now }
{
    let mut rest = text;
    'pairs: while !rest.is_empty() {
        let (pair, after) = rest.split_at(pair_len(rest));
        if is_special(b'"', pair) {
            return text.len() - after.len();
        }
        rest = after;
    }
    text.len()
}

/// The text without the `"` of quoted strings and without the `\` of pairs; text stays text.
pub fn unquoted(alloc: Global, text: &[u8]) -> Result<Vec<u8>, NoMemory>
    ensures value { IfOk result (λ said. said.items ≡ unquoted text.now) }
    ensures text { IfOk result (λ said. IsUtf8 text.now → IsUtf8 said.items) }
{
    let mut said = Vec::with_capacity(alloc, text.len())?;
    let mut rest = text;
    'pairs: while !rest.is_empty() {
        let (pair, after) = rest.split_at(pair_len(rest));
        said.extend_from_slice(unquoted_pair(pair))?;
        rest = after;
    }
    Ok(said)
}

fn unquoted_pair(pair: &[u8]) -> &[u8]
    ensures { result.now ≡ unquoted_pair pair.now }
{
    match pair {
        [] => pair,
        [b'"'] => &pair[1..],
        [_] => pair,
        [_, rest @ ..] => rest,
    }
}
