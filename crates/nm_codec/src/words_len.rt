//! How far the next words go, found by their lengths alone, and whether they are UTF-8: `lent_words` hops over them so.

ghost use Rattle.std.specs.Prelude.{◌≡◌, ◌≤◌, IfSome, MatchOption, Some, None, length, take, drop, true};
ghost use Rattle.std.specs.Bool.{OnTrue};
ghost use Rattle.std.specs.Str.{is_utf8};
ghost use Rattle.nm_base.specs.LentWords.{length_at};
ghost use Rattle.nm_codec.specs.Hops.{after_word, after_words, are_texts};
ghost use Rattle.nm_codec.specs.ReadSteps.{IsBytes};

use nm_base::split_length;

/// How many bytes the next words take, n, each after its length; nothing where they do not end within the bytes, or one has not 1 to
/// 200 bytes.
pub(crate) fn words_len(bytes: &[u8], count: u32) -> Option<usize>
    ensures { IfSome result (λ len. (len ≤ length bytes.now) × (after_words count bytes.now ≡ Some (drop len bytes.now)) × IsBytes bytes.now) }
{
    let mut rest = bytes;
    'words: for _ in 0..count {
        rest = after_word(rest)?;
    }
    Some(bytes.len() - rest.len())
}

/// The bytes after the first word.
fn after_word<'a>(bytes: &'a [u8]) -> Option<&'a [u8]>
    ensures { MatchOption result (after_word bytes.now ≡ None) (λ rest. after_word bytes.now ≡ Some rest.now) }
{
    let (len, rest) = split_length(bytes)?;
    if len == 0 || 200 < len || rest.len() < len {
        return None;
    }
    Some(rest.split_at(len).1)
}

/// Whether the next words, n, are UTF-8. They take `len` bytes, and where these are ASCII one look tells it.
pub(crate) fn are_texts(bytes: &[u8], len: usize, count: u32) -> bool
    requires within { len ≤ length bytes.now }
    requires words { after_words count bytes.now ≡ Some (drop len bytes.now) }
    ensures { OnTrue result (are_texts count bytes.now ≡ true) }
{
    let (front, _) = bytes.split_at(len);
    if front.is_ascii() {
        return true;
    }
    each_is_text(bytes, count)
}

/// The same, word by word.
fn each_is_text(bytes: &[u8], count: u32) -> bool
    ensures { OnTrue result (are_texts count bytes.now ≡ true) }
{
    let mut rest = bytes;
    'words: for _ in 0..count {
        let Some((word, next)) = first_word(rest) else {
            return false;
        };
        if !is_text(word) {
            return false;
        }
        rest = next;
    }
    true
}

/// The first word, and the bytes after it.
fn first_word<'a>(bytes: &'a [u8]) -> Option<(&'a [u8], &'a [u8])>
    ensures { IfSome result (λ parts. (parts.0.now ≡ take (length_at bytes.now) (drop 4 bytes.now)) × (parts.1.now ≡ drop (length_at bytes.now) (drop 4 bytes.now))) }
{
    let (len, rest) = split_length(bytes)?;
    if rest.len() < len {
        return None;
    }
    Some(rest.split_at(len))
}

#[tactic(auto, using(crate::proofs::Utf8Lemmas::utf8))]
fn is_text(bytes: &[u8]) -> bool
    ensures { OnTrue result (is_utf8 bytes.now ≡ true) }
{
    match str::from_utf8(bytes) {
        Ok(_) => true,
        Err(_) => false,
    }
}
