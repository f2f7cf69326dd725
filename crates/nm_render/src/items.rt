//! What a search for threads, messages, files or tags prints, for `search_reply`.

ghost use Rattle.std.specs.Prelude.{◌≡◌, [], true, codes, map, IfOk};
ghost use Rattle.serde_json.specs.Data.{string};
ghost use Rattle.nm_model_answer.specs.Search.{part_asked, paths_of_all, tags_of_all, texts_printed, thread_digits, threads_of};
ghost use Rattle.nm_render.specs.ReadBack.{ReadsBack};

use crate::lists::{part_of, paths_of_all, tags_of_all, threads_asked};
use crate::text_lists::texts_printed;
use nm_base::{Copies, Many, MessageId, NoMemory, SearchAsk, Tag, Text};
use nm_state::Snapshot;
use std::alloc::Global;

/// The threads of messages that are in order, as far as they are asked for.
pub(crate) fn threads_text(
    alloc: Global,
    snapshot: &Snapshot,
    ask: &SearchAsk,
    ids: &[MessageId],
) -> Result<Many<u8>, NoMemory>
    ensures text { IfOk result (λ text. text ≡ texts_printed ask.now.json (codes "thread:") (map thread_digits (part_asked ask.now (threads_of snapshot.now ids.now)))) }
    ensures reads_back { ask.now.json ≡ true → IfOk result (λ text. ReadsBack (map string (map thread_digits (part_asked ask.now (threads_of snapshot.now ids.now)))) text) }
{
    let asked = threads_asked(alloc, snapshot, ask, ids)?;
    let digits = digits_of(alloc, asked.as_slice())?;
    texts_printed(alloc, ask.json, b"thread:", digits.as_slice())
}

/// The names of threads in digits.
fn digits_of(alloc: Global, names: &[u64]) -> Result<Many<Text>, NoMemory>
    ensures { IfOk result (λ texts. texts ≡ map thread_digits names.now) }
{
    let mut texts = Many::new(alloc);
    'names: for name in names {
        texts.push(thread_digits(alloc, *name)?)?;
    }
    Ok(texts)
}

/// The name of a thread, in 16 hex digits.
pub(crate) fn thread_digits(alloc: Global, name: u64) -> Result<Text, NoMemory>
    ensures { IfOk result (λ digits. digits ≡ thread_digits name) }
{
    let digits = hex::encode(alloc, name.to_be_bytes())?;
    Text::from_string(digits)
}

/// Their ids.
pub(crate) fn messages_text(
    alloc: Global,
    ask: &SearchAsk,
    ids: &[MessageId],
) -> Result<Many<u8>, NoMemory>
    ensures text { IfOk result (λ text. text ≡ texts_printed ask.now.json (codes "id:") (part_asked ask.now ids.now)) }
    ensures reads_back { ask.now.json ≡ true → IfOk result (λ text. ReadsBack (map string (part_asked ask.now ids.now)) text) }
{
    let asked = part_of(ids, ask.offset, ask.limit);
    let texts = texts_of_ids(alloc, asked)?;
    texts_printed(alloc, ask.json, b"id:", texts.as_slice())
}

fn texts_of_ids(alloc: Global, ids: &[MessageId]) -> Result<Many<Text>, NoMemory>
    ensures { IfOk result (λ texts. texts ≡ ids.now) }
{
    let mut texts = Many::new(alloc);
    'ids: for id in ids {
        texts.push(id.text().copy()?)?;
    }
    Ok(texts)
}

/// Their files.
pub(crate) fn files_text(
    alloc: Global,
    snapshot: &Snapshot,
    ask: &SearchAsk,
    ids: &[MessageId],
) -> Result<Many<u8>, NoMemory>
    ensures text { IfOk result (λ text. text ≡ texts_printed ask.now.json [] (part_asked ask.now (paths_of_all snapshot.now ids.now))) }
    ensures reads_back { ask.now.json ≡ true → IfOk result (λ text. ReadsBack (map string (part_asked ask.now (paths_of_all snapshot.now ids.now))) text) }
{
    let paths = paths_of_all(alloc, snapshot, ids)?;
    let asked = part_of(paths.as_slice(), ask.offset, ask.limit);
    texts_printed(alloc, ask.json, b"", asked)
}

/// Their tags.
pub(crate) fn tags_text(
    alloc: Global,
    snapshot: &Snapshot,
    ask: &SearchAsk,
    ids: &[MessageId],
) -> Result<Many<u8>, NoMemory>
    ensures text { IfOk result (λ text. text ≡ texts_printed ask.now.json [] (part_asked ask.now (tags_of_all snapshot.now ids.now))) }
    ensures reads_back { ask.now.json ≡ true → IfOk result (λ text. ReadsBack (map string (part_asked ask.now (tags_of_all snapshot.now ids.now))) text) }
{
    let tags = tags_of_all(alloc, snapshot, ids, 0)?.to_list(alloc)?;
    let texts = texts_of_tags(alloc, tags.as_slice())?;
    let asked = part_of(texts.as_slice(), ask.offset, ask.limit);
    texts_printed(alloc, ask.json, b"", asked)
}

pub(crate) fn texts_of_tags(alloc: Global, tags: &[Tag]) -> Result<Many<Text>, NoMemory>
    ensures { IfOk result (λ texts. texts ≡ tags.now) }
{
    let mut texts = Many::new(alloc);
    'tags: for tag in tags {
        texts.push(tag.text().copy()?)?;
    }
    Ok(texts)
}
