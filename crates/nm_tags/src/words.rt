//! The words of a line of tag changes, and its query; `batch_lines` reads with them.

ghost use Rattle.std.specs.Prelude.{◌≡◌, ◌≤◌, ◌<◌, [], ◌∷◌, length, IfOk, IfSome, MatchOption};
ghost use Rattle.std.specs.List.{position_or_len};
ghost use Rattle.nm_base.specs.Bounds.{is_white_space};
ghost use Rattle.nm_text.specs.WhiteSpace.{trimmed, trimmed_end, trimmed_start};
ghost use Rattle.nm_tags.specs.TagLines.{after_first_word, begins_with_space, first_word, is_tag_word, query_after, words_in};

use nm_base::{NoMemory, Text};
use nm_text::{as_text, is_white_space};
use std::alloc::Global;

/// The first word of a text and the text after it; nothing where there is white space alone.
pub fn next_word(text: &str) -> Option<(&str, &str)>
    ensures first { MatchOption result (first_word text.now ≡ []) (λ cut. cut.0.now ≡ first_word text.now) }
    ensures after { IfSome result (λ cut. cut.1.now ≡ after_first_word text.now) }
    ensures words { MatchOption result (words_in text.now ≡ []) (λ cut. words_in text.now ≡ cut.0.now ∷ words_in cut.1.now) }
    ensures shorter { IfSome result (λ cut. length cut.1.now < length text.now) }
{
    match cut_word(text) {
        Some((word, after)) => Some((word, after)),
        None => None,
    }
}

fn cut_word(text: &str) -> Option<(&str, &str)>
    ensures first { MatchOption result (first_word text.now ≡ []) (λ cut. cut.0.now ≡ first_word text.now) }
    ensures after { IfSome result (λ cut. cut.1.now ≡ after_first_word text.now) }
    ensures some { MatchOption result (length (trimmed_start text.now) ≡ 0) (λ cut. 0 < length (trimmed_start text.now)) }
{
    let rest = without_space(text);
    if rest.is_empty() {
        return None;
    }
    let (word, more) = rest.split_at(word_len(rest.as_bytes()));
    Some((word, more))
}

/// The text without the white space at its front.
pub fn without_space(text: &str) -> &str
    ensures { result.now ≡ trimmed_start text.now }
{
    let mut rest = text;
    'spaces: while begins_with_space(rest) {
        rest = &rest[1..];
    }
    rest
}

/// Whether the text begins with white space.
pub fn begins_with_space(text: &str) -> bool
    ensures { result ≡ begins_with_space text.now }
{
    match text.as_bytes() {
        [] => false,
        [first, ..] => is_white_space(*first),
    }
}

/// The place of the first white space, or the length.
fn word_len(text: &[u8]) -> usize
    ensures place { result ≡ position_or_len is_white_space text.now }
    ensures within { result ≤ length text.now }
{
    let mut at = 0;
    'bytes: while at < text.len() && !is_white_space(text[at]) {
        at += 1;
    }
    at
}

/// The query that a text without tag words at its front is: a `--` may come before it.
pub(crate) fn query_after(alloc: Global, text: &str) -> Result<Text, NoMemory>
    ensures { IfOk result (λ query. query ≡ query_after text.now) }
{
    match next_word(text) {
        Some((word, after)) if word == "--" => trimmed(alloc, after),
        _ => trimmed(alloc, text),
    }
}

fn trimmed(alloc: Global, text: &str) -> Result<Text, NoMemory>
    ensures { IfOk result (λ query. query ≡ trimmed text.now) }
{
    let kept = nm_text::trimmed(text.as_bytes());
    Text::of(alloc, as_text(kept))
}

/// Whether the word begins with a sign, and is not `--`.
pub(crate) fn is_tag_word(word: &str) -> bool
    ensures { result ≡ is_tag_word word.now }
{
    if word == "--" {
        return false;
    }
    match word.as_bytes() {
        [] => false,
        [sign, ..] => *sign == b'+' || *sign == b'-',
    }
}
