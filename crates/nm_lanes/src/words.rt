//! The words of a line, for `line`.

ghost use Rattle.std.specs.Prelude.{◌≡◌, ◌<◌, ◌≤◌, [], ◌∷◌, length, IfOk, MatchOption, false};
ghost use Rattle.std.specs.List.{position_or_len};
ghost use Rattle.nm_lanes.specs.Words.{begins_blank, words_of};
ghost use Rattle.nm_text.specs.WhiteSpace.{is_blank};

use nm_base::{Many, NoMemory, Text};
use nm_text::is_blank;
use std::alloc::Global;

/// The words of a text, in their order.
pub(crate) fn words(alloc: Global, text: &str) -> Result<Many<Text>, NoMemory>
    ensures { IfOk result (λ words. words ≡ words_of text.now) }
{
    let mut words = Many::new(alloc);
    let mut rest = text;
    'words: while let Some((word, more)) = next_word(rest) {
        words.push(Text::of(alloc, word)?)?;
        rest = more;
    }
    Ok(words)
}

/// The first word of a text, and the text after it.
pub(crate) fn next_word(text: &str) -> Option<(&str, &str)>
    ensures { MatchOption result (words_of text.now ≡ []) (λ split. words_of text.now ≡ split.0.now ∷ words_of split.1.now) }
{
    let rest = without_blanks(text);
    if rest.is_empty() {
        return None;
    }
    let (word, more) = rest.split_at(word_len(rest.as_bytes()));
    Some((word, more))
}

/// The text from its first byte on that is no blank.
fn without_blanks(text: &str) -> &str
    ensures same { words_of result.now ≡ words_of text.now }
    ensures first { begins_blank result.now ≡ false }
{
    let mut rest = text;
    'blanks: while begins_with_blank(rest) {
        rest = &rest[1..];
    }
    rest
}

fn begins_with_blank(text: &str) -> bool
    ensures { result ≡ begins_blank text.now }
{
    match text.as_bytes() {
        [] => false,
        [first, ..] => is_blank(*first),
    }
}

/// The place of the first blank, or the length.
fn word_len(text: &[u8]) -> usize
    ensures place { result ≡ position_or_len is_blank text.now }
    ensures within { result ≤ length text.now }
{
    for (at, b) in text.iter().enumerate() {
        if is_blank(*b) {
            return at;
        }
    }
    text.len()
}
