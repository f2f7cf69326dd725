//! Lines of a dump in the form of sup, for `dump_reader`.

ghost use Rattle.std.specs.Prelude.{◌≡◌, ◌-◌, ◌<◌, [], length, take, drop, IfOk, IfSome, MatchOption, None, Some, if◌then◌else◌};
ghost use Rattle.nm_base.specs.Tag.{is_tag};
ghost use Rattle.nm_model_answer.specs.Sup.{inside, is_in_parentheses, read_sup, set_all};
ghost use Rattle.nm_tags.specs.TagLines.{words_in};

use crate::ids::checked_id;
use nm_base::{Many, MessageId, NoMemory, Tag, TagOp, Text};
use nm_tags::{LineKind, begins_with_space, next_word, without_space};
use std::alloc::Global;

/// What a line asks for, or its first fault.
pub(crate) fn read_sup(
    alloc: Global,
    text: &str,
) -> Result<Result<(MessageId, Many<TagOp>), LineKind>, NoMemory>
    ensures { IfOk result (λ answer. answer ≡ read_sup text.now) }
{
    if begins_with_space(text) {
        return Ok(Err(LineKind::Form));
    }
    let Some((word, after)) = next_word(text) else {
        return Ok(Err(LineKind::Form));
    };
    let Some(id) = checked_id(alloc, word.as_bytes())? else {
        return Ok(Err(LineKind::Form));
    };
    let Some(tags) = inside(without_space(after)) else {
        return Ok(Err(LineKind::Form));
    };
    match set_all(alloc, tags)? {
        Some(ops) => Ok(Ok((id, ops))),
        None => Ok(Err(LineKind::Tag)),
    }
}

/// What is in parentheses, where the text is in these.
fn inside(text: &str) -> Option<&str>
    ensures { MatchOption result (inside text.now ≡ None) (λ kept. inside text.now ≡ Some kept.now) }
{
    if !is_in_parentheses(text.as_bytes()) {
        return None;
    }
    Some(&text[1..text.len() - 1])
}

fn is_in_parentheses(text: &[u8]) -> bool
    ensures { result ≡ is_in_parentheses text.now }
{
    text.len() >= 2 && text[0] == b'(' && text[text.len() - 1] == b')'
}

/// The tags that are set, or nothing where one of the words is no tag.
#[tactic(auto, using(crate::proofs::DumpLemmas::with_one_tag))]
fn set_all(alloc: Global, text: &str) -> Result<Option<Many<TagOp>>, NoMemory>
    ensures { IfOk result (λ ops. ops ≡ set_all (words_in text.now)) }
{
    let mut ops = Many::new(alloc);
    let mut rest = text;
    'words: while let Some((word, more)) = next_word(rest) {
        let Some(tag) = tag_of(alloc, word)? else {
            return Ok(None);
        };
        ops.push(TagOp { add: true, tag })?;
        rest = more;
    }
    Ok(Some(ops))
}

fn tag_of(alloc: Global, word: &str) -> Result<Option<Tag>, NoMemory>
    ensures { IfOk result (λ tag. tag ≡ (if is_tag word.now then Some word.now else None)) }
{
    match Tag::new(Text::of(alloc, word)?) {
        Ok(tag) => Ok(Some(tag)),
        Err(_) => Ok(None),
    }
}
