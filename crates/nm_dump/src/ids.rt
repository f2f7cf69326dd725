//! Ids in the lines of a dump, for `dump_reader` and `line_writer`.

ghost use Rattle.std.specs.Prelude.{◌≡◌, ◌<◌, [], length, IfOk, IfSome, MatchOption, None, Some};
ghost use Rattle.nm_model_answer.specs.Dump.{has_parenthesis};
ghost use Rattle.nm_model_answer.specs.BatchTag.{checked_id, id_of_query, id_text, unencoded, unquoted, with_byte};

use nm_base::{Many, MessageId, NoMemory, Text};
use nm_tags::text_of;
use std::alloc::Global;

/// The id that a query names which is nothing but an id.
pub(crate) fn id_of_query(alloc: Global, query: &[u8]) -> Result<Option<MessageId>, NoMemory>
    ensures { IfOk result (λ id. id ≡ id_of_query query.now) }
{
    if !query.starts_with(b"id:") {
        return Ok(None);
    }
    match id_text(alloc, &query[3..])? {
        Some(text) => checked_id(alloc, text.as_slice()),
        None => Ok(None),
    }
}

/// The bytes as an id, where they are one.
pub(crate) fn checked_id(alloc: Global, bytes: &[u8]) -> Result<Option<MessageId>, NoMemory>
    ensures { IfOk result (λ id. id ≡ checked_id (Some bytes.now)) }
{
    let Some(text) = text_of(bytes) else {
        return Ok(None);
    };
    match MessageId::new(Text::of(alloc, text)?) {
        Ok(id) => Ok(Some(id)),
        Err(_) => Ok(None),
    }
}

/// The text of an id: in quotes, or as it is, and then without `)`.
fn id_text(alloc: Global, bytes: &[u8]) -> Result<Option<Many<u8>>, NoMemory>
    ensures { IfOk result (λ text. text ≡ id_text bytes.now) }
{
    match bytes {
        [] => Ok(None),
        [b'"', more @ ..] => unquoted(alloc, more),
        _ => unencoded(alloc, bytes),
    }
}

fn unencoded(alloc: Global, bytes: &[u8]) -> Result<Option<Many<u8>>, NoMemory>
    ensures { IfOk result (λ text. text ≡ unencoded bytes.now) }
{
    if has_parenthesis(bytes) {
        return Ok(None);
    }
    let text = Many::from_slice(alloc, bytes)?;
    Ok(Some(text))
}

pub(crate) fn has_parenthesis(bytes: &[u8]) -> bool
    ensures { result ≡ has_parenthesis bytes.now }
{
    bytes.iter().any(|byte| *byte == b')')
}

#[tactic(auto, using(crate::proofs::QuoteLemmas::with_one_byte))]
fn unquoted(alloc: Global, quoted: &[u8]) -> Result<Option<Many<u8>>, NoMemory>
    ensures { IfOk result (λ text. text ≡ unquoted quoted.now) }
{
    let mut text = Many::new(alloc);
    let mut rest = quoted;
    'bytes: loop {
        match next_quoted(rest) {
            None => return Ok(None),
            Some(None) => return Ok(Some(text)),
            Some(Some((byte, more))) => {
                text.push(byte)?;
                rest = more;
            }
        }
    }
}

/// The first byte in quotes and what comes after it, or that the quotes end; nothing where they don't end well.
fn next_quoted(quoted: &[u8]) -> Option<Option<(u8, &[u8])>>
    ensures value { MatchOption result (unquoted quoted.now ≡ None)
        (λ found. MatchOption found (unquoted quoted.now ≡ Some []) (λ cut. unquoted quoted.now ≡ with_byte cut.0 (unquoted cut.1.now))) }
    ensures shorter { IfSome result (λ found. IfSome found (λ cut. length cut.1.now < length quoted.now)) }
{
    match quoted {
        [] => None,
        [b'"'] => Some(None),
        [b'"', b'"', more @ ..] => Some(Some((b'"', more))),
        [b'"', ..] => None,
        [byte, more @ ..] => Some(Some((*byte, more))),
    }
}
