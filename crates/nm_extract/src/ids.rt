//! The id of a mail and its links, for `extract`.

ghost use Rattle.std.specs.Prelude.{◌≡◌, ◌++◌, IfOk, OnOk};
ghost use Rattle.nm_extract.specs.Ids.{digest_id, field_ids, links_among, named_ids, own_id};

use nm_base::{Copies, Many, MessageId, NoMemory, Text, TextSet};
use nm_header::{HeaderList, ids};
use sha1::Sha1;
use std::alloc::Global;

/// The first id of the Message-ID, or where there is none one that is made of the SHA-1 of the bytes.
pub(crate) fn own_id(
    alloc: Global,
    bytes: &[u8],
    header: &HeaderList,
) -> Result<MessageId, NoMemory>
    ensures { IfOk result (λ id. id ≡ own_id bytes.now header.now.list) }
{
    let mut named = Vec::new(alloc);
    add_field_ids(alloc, header, "message-id", &mut named)?;
    match named.first() {
        Some(id) => id.copy(),
        None => digest_id(alloc, bytes),
    }
}

#[tactic(auto, using(crate::proofs::DigestLemmas::digest_is_id))]
fn digest_id(alloc: Global, bytes: &[u8]) -> Result<MessageId, NoMemory>
    ensures { IfOk result (λ id. id ≡ digest_id bytes.now) }
{
    match MessageId::new(digest_text(alloc, bytes)?) {
        Ok(id) => Ok(id),
        Err(_) => unreachable!(),
    }
}

fn digest_text(alloc: Global, bytes: &[u8]) -> Result<Text, NoMemory>
    ensures { IfOk result (λ text. text ≡ digest_id bytes.now) }
{
    let digits = hex::encode(alloc, Sha1::digest(bytes))?;
    let mut text = String::from_str(alloc, "notmuch-sha1-")?;
    text.push_str(digits.as_str())?;
    Ok(Text::from_string(text)?)
}

/// Adds the ids in the fields of a name that count.
fn add_field_ids(
    alloc: Global,
    header: &HeaderList,
    name: &str,
    found: &mut Vec<MessageId>,
) -> Result<(), NoMemory>
    ensures { OnOk result (found.new.items ≡ found.old.items ++ field_ids header.now.list name.now) }
{
    let texts = header.texts(alloc, name)?;
    'texts: for text in texts.as_slice() {
        let mut more = ids(alloc, text.as_str())?.into_vec();
        found.append(&mut more)?;
    }
    Ok(())
}

/// The ids that the mail names, each once and without its own.
pub(crate) fn links(
    alloc: Global,
    own: &MessageId,
    header: &HeaderList,
) -> Result<Many<MessageId>, NoMemory>
    ensures { IfOk result (λ links. links ≡ links_among own.now (named_ids header.now.list)) }
{
    let mut named = Vec::new(alloc);
    add_field_ids(alloc, header, "references", &mut named)?;
    add_field_ids(alloc, header, "in-reply-to", &mut named)?;
    links_among(alloc, own, named.as_slice())
}

fn links_among(
    alloc: Global,
    own: &MessageId,
    ids: &[MessageId],
) -> Result<Many<MessageId>, NoMemory>
    ensures { IfOk result (λ links. links ≡ links_among own.now ids.now) }
{
    let mut links = Many::new(alloc);
    let mut seen = TextSet::new(alloc);
    seen.insert(own.copy()?)?;
    'ids: for id in ids {
        if seen.contains(id) {
            continue;
        }
        seen.insert(id.copy()?)?;
        links.push(id.copy()?)?;
    }
    Ok(links)
}
