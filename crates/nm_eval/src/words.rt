//! Words in the lists of a file, one after the other in one single list, for `query_test`.

ghost use Rattle.std.specs.Prelude.{◌≡◌, ◌≢◌, ◌∷◌, [], ◌&&◌};
ghost use Rattle.nm_base.specs.Order.{same_text};
ghost use Rattle.nm_base.specs.AskedWords.{begins_with, has_words, is_asked, is_last_word, lists_have};

use nm_base::{Facts, Field, FieldWords, WordList, Words};

/// Says whether a list of the field has the words, a first one and then more.
pub(crate) fn facts_have(
    field: Option<Field>,
    starts: bool,
    first: &[u8],
    more: &Words<'_>,
    facts: &Facts,
) -> bool
    ensures { result ≡ lists_have field starts (first.now ∷ more.now) facts.now.lists }
{
    facts
        .lists
        .as_slice()
        .iter()
        .any(|list| list_has(field, starts, first, more, list))
}

fn list_has(
    field: Option<Field>,
    starts: bool,
    first: &[u8],
    more: &Words<'_>,
    list: &FieldWords,
) -> bool
    ensures { result ≡ (is_asked field list.now.field && has_words starts (first.now ∷ more.now) list.now.words) }
{
    if !is_asked(field, list.field) {
        return false;
    }
    has_words(starts, first, more, &list.words)
}

fn is_asked(asked: Option<Field>, field: Field) -> bool
    ensures { result ≡ is_asked asked field }
{
    match asked {
        Some(asked) => asked.number() == field.number(),
        None => true,
    }
}

/// Says whether the list has the words from some place on.
fn has_words(starts: bool, first: &[u8], more: &Words<'_>, list: &WordList) -> bool
    ensures { result ≡ has_words starts (first.now ∷ more.now) list.now }
{
    if more.is_empty() {
        return has_word(starts, first, list);
    }
    has_phrase(starts, first, more, list)
}

/// Says whether the word is in the list, in one pass over it.
fn has_word(starts: bool, word: &[u8], list: &WordList) -> bool
    ensures { result ≡ has_words starts (word.now ∷ []) list.now }
{
    let mut rest = list.words();
    'places: loop {
        let Some(found) = rest.take_first() else {
            return false;
        };
        if is_last_word(starts, word, found) {
            return true;
        }
    }
}

/// Says whether the list has the first word and then others. Only where the first one is there are the others looked at.
fn has_phrase(starts: bool, first: &[u8], more: &Words<'_>, list: &WordList) -> bool
    requires { more.now ≢ [] }
    ensures { result ≡ has_words starts (first.now ∷ more.now) list.now }
{
    let mut rest = list.words();
    'places: loop {
        let Some(found) = rest.take_first() else {
            return false;
        };
        if goes_on(starts, first, more, found, &rest) {
            return true;
        }
    }
}

/// Says whether the word found is the first one, and the others follow it.
fn goes_on(starts: bool, first: &[u8], more: &Words<'_>, found: &[u8], rest: &Words<'_>) -> bool
    ensures { result ≡ (same_text first.now found.now && begins_with starts more.now rest.now) }
{
    if first != found {
        return false;
    }
    begins_with(starts, more, rest)
}

/// Says whether the list begins with the words.
fn begins_with(starts: bool, words: &Words<'_>, list: &Words<'_>) -> bool
    ensures { result ≡ begins_with starts words.now list.now }
{
    let mut rest = list.again();
    let mut wanted = words.again();
    'words: loop {
        let Some(word) = wanted.take_first() else {
            return true;
        };
        let Some(found) = rest.take_first() else {
            return false;
        };
        if wanted.is_empty() {
            return is_last_word(starts, word, found);
        }
        if word != found {
            return false;
        }
    }
}

fn is_last_word(starts: bool, word: &[u8], found: &[u8]) -> bool
    ensures { result ≡ is_last_word starts word.now found.now }
{
    if starts {
        return found.starts_with(word);
    }
    word == found
}
