//! How far a name or an address goes in a field of mailboxes, for `mailboxes`.

ghost use Rattle.std.specs.Prelude.{◌≡◌, ◌+◌, ◌∷◌, ◌<◌, ◌≤◌, length, min, take, drop};
ghost use Rattle.std.specs.List.{position_or_len};
ghost use Rattle.nm_header.specs.Mailboxes.{StopsAt, begins_with_any, mailbox_lexemes_of};
ghost use Rattle.nm_text.specs.Cuts.{is_byte};

use nm_text::{first_place, pair_len, quoted_len};

/// How many bytes come before the first lexeme that begins with one of these specials.
pub(crate) fn stop_len(text: &[u8], specials: &[u8]) -> usize
    ensures { StopsAt specials.now text.now result }
{
    let mut left = text;
    'lexemes: while !left.is_empty() {
        if begins_with_any(left, specials) {
            return text.len() - left.len();
        }
        let (_, after) = left.split_at(mailbox_lexeme_len(left));
        left = after;
    }
    text.len()
}

pub(crate) fn begins_with_any(text: &[u8], specials: &[u8]) -> bool
    ensures { result ≡ begins_with_any specials.now text.now }
{
    match text {
        [] => false,
        [first, ..] => specials.contains(first),
    }
}

/// How many bytes the first lexeme has: a quoted text, what is in `<..>`, or a pair.
fn mailbox_lexeme_len(text: &[u8]) -> usize
    requires { 0 < length text.now }
    ensures first { mailbox_lexemes_of text.now ≡ take result text.now ∷ mailbox_lexemes_of (drop result text.now) }
    ensures some { 0 < result }
    ensures within { result ≤ length text.now }
{
    let (_, after) = text.split_at(1);
    if text[0] == b'"' {
        return 1 + quoted_len(after);
    }
    if text[0] == b'<' {
        return 1 + angle_len(after);
    }
    pair_len(text)
}

/// How many bytes there are up to the next `>`, and with it.
fn angle_len(text: &[u8]) -> usize
    ensures value { result ≡ min (position_or_len (is_byte 62) text.now + 1) (length text.now) }
    ensures within { result ≤ length text.now }
{
    let at = first_place(text, b'>');
    if at < text.len() { at + 1 } else { at }
}
