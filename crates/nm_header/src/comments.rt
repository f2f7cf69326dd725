//! How far a comment, a quoted text or a pair goes, for `plain`.

ghost use Rattle.std.specs.Prelude.{◌≡◌, ◌∷◌, ◌<◌, ◌≤◌, IsUtf8, length, take, drop, true};
ghost use Rattle.nm_base.specs.Limits.{max_count};
ghost use Rattle.nm_header.specs.Comments.{comment_len, depth_after, is_comment, lexemes_of};

use nm_text::{is_special, pair_len, quoted_len};

/// How many bytes the first comment, quoted text or pair has.
pub(crate) fn lexeme_len(text: &[u8]) -> usize
    requires { 0 < length text.now }
    ensures first { lexemes_of text.now ≡ take result text.now ∷ lexemes_of (drop result text.now) }
    ensures some { 0 < result }
    ensures within { result ≤ length text.now }
    ensures after { is_comment text.now ≡ true → IsUtf8 (drop 1 text.now) → IsUtf8 (drop result text.now) }
{
    let (_, after) = text.split_at(1);
    if text[0] == b'(' {
        return 1 + comment_len(after);
    }
    if text[0] == b'"' {
        return 1 + quoted_len(after);
    }
    pair_len(text)
}

/// How many bytes there are up to the `)` that closes a comment, and with it.
fn comment_len(text: &[u8]) -> usize
    ensures value { result ≡ comment_len text.now }
    ensures within { result ≤ length text.now }
    ensures after { IsUtf8 text.now → IsUtf8 (drop result text.now) }
{
    let mut left = text;
    let mut depth = 1;
    'pairs: while !left.is_empty() {
        let (pair, after) = left.split_at(pair_len(left));
        depth = depth_after(depth, pair);
        if depth == 0 {
            return text.len() - after.len();
        }
        left = after;
    }
    text.len()
}

/// How many comments are open after the pair.
fn depth_after(depth: usize, pair: &[u8]) -> usize
    requires low { 0 < depth }
    requires high { depth < max_count }
    ensures { result ≡ depth_after depth pair.now }
{
    if is_special(b')', pair) {
        return depth - 1;
    }
    if is_special(b'(', pair) {
        return depth + 1;
    }
    depth
}
