//! The words of `tag` after its options, for `command`: changes of tags, then a query.

ghost use Rattle.std.specs.Prelude.{◌≡◌, ◌<◌, [], true, length, IfOk, IfSome, MatchOption, MatchResult, Ok, Err};
ghost use Rattle.nm_command.specs.TagWords.{changes_of, has_sign, is_tag_word, op_of, query_words, with_op};

use nm_base::{Many, NoMemory, Tag, TagOp, Text};
use std::alloc::Global;

/// What the tag words at the front ask for, and the words of the query; or the first of them that has no tag.
#[tactic(auto, using(crate::proofs::TagLemmas::with_one_more))]
pub(crate) fn changes_of(
    alloc: Global,
    words: &[Text],
) -> Result<Result<(Many<TagOp>, &[Text]), &str>, NoMemory>
    ensures { IfOk result (λ read. MatchResult read (λ asked. changes_of words.now ≡ Ok (asked.0, asked.1.now)) (λ word. changes_of words.now ≡ Err word.now)) }
{
    let mut ops = Many::new(alloc);
    let mut rest = words;
    'words: while let Some((word, more)) = next_tag_word(rest) {
        let Some(op) = op_of(alloc, word)? else {
            return Ok(Err(word));
        };
        ops.push(op)?;
        rest = more;
    }
    Ok(Ok((ops, query_words(rest))))
}

/// The first word where it is a tag word, and those after it.
fn next_tag_word(words: &[Text]) -> Option<(&str, &[Text])>
    ensures asked { MatchOption result (changes_of words.now ≡ Ok ([], query_words words.now))
        (λ cut. changes_of words.now ≡ with_op cut.0.now (op_of cut.0.now) (changes_of cut.1.now)) }
    ensures word { IfSome result (λ cut. is_tag_word cut.0.now ≡ true) }
    ensures shorter { IfSome result (λ cut. length cut.1.now < length words.now) }
{
    match words {
        [word, more @ ..] if is_tag_word(word.as_str()) => Some((word.as_str(), more)),
        _ => None,
    }
}

/// What a tag word asks for; nothing where it has no tag. The tag is taken as it is written.
pub(crate) fn op_of(alloc: Global, word: &str) -> Result<Option<TagOp>, NoMemory>
    requires { is_tag_word word.now ≡ true }
    ensures { IfOk result (λ op. op ≡ op_of word.now) }
{
    let add = word.as_bytes()[0] == b'+';
    match Tag::new(Text::of(alloc, &word[1..])?) {
        Ok(tag) => Ok(Some(TagOp { add, tag })),
        Err(_) => Ok(None),
    }
}

/// Whether the word begins with a sign, and is not `--`.
pub(crate) fn is_tag_word(word: &str) -> bool
    ensures { result ≡ is_tag_word word.now }
{
    if word == "--" {
        return false;
    }
    has_sign(word)
}

fn has_sign(word: &str) -> bool
    ensures { result ≡ has_sign word.now }
{
    match word.as_bytes() {
        [] => false,
        [first, ..] => *first == b'+' || *first == b'-',
    }
}

/// The words of the query; a `--` may come before them.
pub(crate) fn query_words(words: &[Text]) -> &[Text]
    ensures { result.now ≡ query_words words.now }
{
    match words {
        [word, more @ ..] if word.as_str() == "--" => more,
        _ => words,
    }
}
