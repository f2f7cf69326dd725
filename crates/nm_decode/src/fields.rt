//! The charset, the encoding and the text of an encoded word, for `words`.

ghost use Rattle.std.specs.Prelude.{◌≡◌, ◌∷◌, ◌++◌, [], None, Some, IfSome, MatchOption, IsTrue, ℕ, List};
ghost use Rattle.nm_decode.specs.EncodedWords.{begins_with_equals, fields_of, segments_of};
ghost use Rattle.nm_decode.specs.WordSteps.{IsFramed};

use nm_text::first_place;

/// The charset, the encoding and the encoded text of the word with which a text begins.
pub(crate) fn fields(text: &[u8]) -> Option<(&[u8], &[u8], &[u8])>
    ensures value { MatchOption result (fields_of (segments_of text.now) ≡ None)
        (λ f. fields_of (segments_of text.now) ≡ Some (f.0.now, f.1.now, f.2.now)) }
    ensures form { IfSome result (λ f. IsFramed text.now f.0.now f.1.now f.2.now) }
{
    let rest = opened(text)?;
    let (charset, rest) = segment(rest)?;
    let (encoding, rest) = segment(rest)?;
    let (encoded, rest) = segment(rest)?;
    if !begins_with_equals(rest) {
        return None;
    }
    Some((charset, encoding, encoded))
}

/// What follows the `=?` at the front. It looks no further: a text without words is passed over in one go.
fn opened(text: &[u8]) -> Option<&[u8]>
    ensures value { MatchOption result (fields_of (segments_of text.now) ≡ None)
        (λ rest. segments_of text.now ≡ (61 ∷ []) ∷ segments_of rest.now) }
    ensures form { IfSome result (λ rest. text.now ≡ 61 ∷ 63 ∷ rest.now) }
{
    let (first, rest) = text.split_first()?;
    let (second, rest) = rest.split_first()?;
    if *first != b'=' {
        return None;
    }
    if *second != b'?' {
        return None;
    }
    Some(rest)
}

/// The segment before the first `?`, and what follows it.
fn segment(text: &[u8]) -> Option<(&[u8], &[u8])>
    ensures value { MatchOption result (segments_of text.now ≡ text.now ∷ [])
        (λ cut. segments_of text.now ≡ cut.0.now ∷ segments_of cut.1.now) }
    ensures form { IfSome result (λ cut. text.now ≡ cut.0.now ++ 63 ∷ cut.1.now) }
{
    let at = first_place(text, b'?');
    if at == text.len() {
        return None;
    }
    Some((&text[..at], &text[at + 1..]))
}

fn begins_with_equals(text: &[u8]) -> bool
    ensures value { result ≡ begins_with_equals (segments_of text.now) }
    ensures form { IsTrue result → (after : List ℕ) × (text.now ≡ 61 ∷ after) }
{
    match text.split_first() {
        Some((first, _)) => *first == b'=',
        None => false,
    }
}
