//! Who wrote the messages of a thread, for `summary`.

ghost use Rattle.std.specs.Prelude.{◌≡◌, ◌++◌, [], ◌∷◌, map, string_bytes, IfOk, IsUtf8, OnOk};
ghost use Rattle.std.specs.List.{filter};
ghost use Rattle.nm_model_answer.specs.Summary.{author_of, authors_of, authors_text, first_author, is_some_text, mailbox_author, others_of, with_others};

use crate::lists::{each_once, others_of};
use crate::order::ordered;
use crate::shown::{joined, shown};
use nm_base::{Copies, Mailbox, Many, MessageId, NoMemory, Text};
use nm_state::Snapshot;
use std::alloc::Global;

/// The authors of messages, and of others that are left, as they are shown. All are looked for at `slot_hint` first.
pub(crate) fn authors_text(
    alloc: Global,
    snapshot: &Snapshot,
    matched: &[MessageId],
    others: &[MessageId],
    slot_hint: u64,
) -> Result<Many<u8>, NoMemory>
    ensures value { IfOk result (λ text. text ≡ authors_text snapshot.now matched.now others.now) }
    ensures utf8 { IfOk result (λ text. IsUtf8 text) }
{
    let authors = authors_of(alloc, snapshot, matched, slot_hint)?;
    let left = left_authors(alloc, snapshot, authors.as_slice(), others, slot_hint)?;
    let text = with_others(alloc, authors.as_slice(), left.as_slice())?;
    let text = shown(alloc, text.as_bytes())?;
    Ok(text)
}

/// The authors of other messages who are none of these.
fn left_authors(
    alloc: Global,
    snapshot: &Snapshot,
    authors: &[Text],
    others: &[MessageId],
    slot_hint: u64,
) -> Result<Many<Text>, NoMemory>
    ensures { IfOk result (λ left. left ≡ others_of authors.now (authors_of snapshot.now others.now)) }
{
    let more = authors_of(alloc, snapshot, others, slot_hint)?;
    let left = others_of(alloc, authors, more.as_slice())?;
    Ok(left)
}

fn with_others(alloc: Global, authors: &[Text], others: &[Text]) -> Result<String, NoMemory>
    ensures { IfOk result (λ text. string_bytes text ≡ with_others authors.now others.now) }
{
    let mut text = joined(alloc, ", ", authors)?;
    if others.is_empty() {
        return Ok(text);
    }
    let more = joined(alloc, ", ", others)?;
    text.push_str("| ")?;
    text.push_str(more.as_str())?;
    Ok(text)
}

/// The authors of messages, by date, each once.
fn authors_of(
    alloc: Global,
    snapshot: &Snapshot,
    ids: &[MessageId],
    slot_hint: u64,
) -> Result<Many<Text>, NoMemory>
    ensures { IfOk result (λ authors. authors ≡ authors_of snapshot.now ids.now) }
{
    let ids = copies_of(alloc, ids)?;
    let sorted = ordered(alloc, snapshot, true, ids, slot_hint)?;
    let named = named_authors(alloc, snapshot, sorted.as_slice(), slot_hint)?;
    each_once(alloc, named.as_slice())
}

fn copies_of(alloc: Global, ids: &[MessageId]) -> Result<Many<MessageId>, NoMemory>
    ensures { IfOk result (λ copies. copies ≡ ids.now) }
{
    let mut copies = Many::new(alloc);
    'ids: for id in ids {
        copies.push(id.copy()?)?;
    }
    Ok(copies)
}

fn named_authors(
    alloc: Global,
    snapshot: &Snapshot,
    ids: &[MessageId],
    slot_hint: u64,
) -> Result<Many<Text>, NoMemory>
    ensures { IfOk result (λ authors. authors ≡ filter is_some_text (map (author_of snapshot.now) ids.now)) }
{
    let mut authors = Many::new(alloc);
    let mut slot_hint = slot_hint;
    'ids: for id in ids {
        let (next, author) = author_of(alloc, snapshot, id, slot_hint)?;
        slot_hint = next;
        if !author.as_bytes().is_empty() {
            authors.push(author)?;
        }
    }
    Ok(authors)
}

/// The author of a message, by its lead file, and where that of the next one is looked for first.
fn author_of(
    alloc: Global,
    snapshot: &Snapshot,
    id: &MessageId,
    slot_hint: u64,
) -> Result<(u64, Text), NoMemory>
    ensures { IfOk result (λ told. told.1 ≡ author_of snapshot.now id.now) }
{
    let Some((next, mut files)) = snapshot.files_by_hint(id, slot_hint) else {
        return Ok((slot_hint, Text::new(alloc)));
    };
    let author = match files.next() {
        Some((_, facts)) => first_author(alloc, facts.from.as_slice())?,
        None => Text::new(alloc),
    };
    Ok((next, author))
}

fn first_author(alloc: Global, mailboxes: &[Mailbox]) -> Result<Text, NoMemory>
    ensures { IfOk result (λ author. author ≡ first_author mailboxes.now) }
{
    match mailboxes.first() {
        Some(mailbox) => mailbox_author(mailbox),
        None => Ok(Text::new(alloc)),
    }
}

fn mailbox_author(mailbox: &Mailbox) -> Result<Text, NoMemory>
    ensures { IfOk result (λ author. author ≡ mailbox_author mailbox.now) }
{
    if mailbox.name.as_bytes().is_empty() {
        return mailbox.address.copy();
    }
    mailbox.name.copy()
}
