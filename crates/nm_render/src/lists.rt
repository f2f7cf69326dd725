//! The threads, files and tags of messages, and the part of a list that is asked for, for `items` and `summary`.

ghost use Rattle.std.specs.Prelude.{◌≡◌, ◌≤◌, ◌++◌, ℕ, List, map, nat_eq, not, fold, length, take, IfOk, OnOk};
ghost use Rattle.std.specs.List.{filter, list_any};
ghost use Rattle.nm_base.specs.Order.{insert};
ghost use Rattle.nm_base.specs.Tags.{with_tag};
ghost use Rattle.nm_model_answer.specs.Listing.{each_once, part_of};
ghost use Rattle.nm_model_answer.specs.Search.{part_asked, paths_of_all, tags_of_all, threads_of};
ghost use Rattle.nm_model_answer.specs.View.{files_of, tags_of};

use nm_base::{Copies, Many, MessageId, NoMemory, SearchAsk, Tag, Tags, Text, TextSet};
use nm_state::{SlotGuess, Snapshot};
use std::alloc::Global;

/// The items after those that are passed over, as many as the limit says.
pub(crate) fn part_of<T>(items: &[T], offset: u32, limit: Option<u32>) -> &[T]
    ensures { result.now ≡ part_of offset limit items.now }
{
    let rest = &items[items.len().min(offset as usize)..];
    match limit {
        Some(limit) => &rest[..rest.len().min(limit as usize)],
        None => rest,
    }
}

/// The threads of the messages that are asked for, each once, where the first of its messages is. After the first message of
/// the last of them none is looked at.
pub(crate) fn threads_asked(
    alloc: Global,
    snapshot: &Snapshot,
    ask: &SearchAsk,
    ids: &[MessageId],
) -> Result<Many<u64>, NoMemory>
    ensures { IfOk result (λ names. names ≡ part_asked ask.now (threads_of snapshot.now ids.now)) }
{
    let most = max_threads(ask.offset, ask.limit, ids);
    let names = first_threads(alloc, snapshot, ids, most)?;
    Many::from_slice(alloc, part_of(names.as_slice(), ask.offset, ask.limit))
}

/// How many of the threads the part is among that is asked for.
fn max_threads(offset: u32, limit: Option<u32>, ids: &[MessageId]) -> usize
    ensures { (names : List ℕ) → length names ≤ length ids.now → part_of offset limit (take result names) ≡ part_of offset limit names }
{
    match limit {
        Some(limit) => offset as usize + limit as usize,
        None => ids.len(),
    }
}

/// The first threads of the messages, as many as this at most, each once, where the first of its messages is.
fn first_threads(
    alloc: Global,
    snapshot: &Snapshot,
    ids: &[MessageId],
    most: usize,
) -> Result<Many<u64>, NoMemory>
    ensures { IfOk result (λ names. names ≡ take most (threads_of snapshot.now ids.now)) }
{
    let mut names = Many::new(alloc);
    let mut seen = TextSet::new(alloc);
    let mut guess = SlotGuess::new();
    'ids: for id in ids {
        if most <= names.len() {
            return Ok(names);
        }
        let (behind, thread) = snapshot.thread_by_hint(id, guess.hint());
        guess = guess.with(behind);
        let Some(name) = thread else {
            continue;
        };
        if seen.insert(name)? {
            names.push(name)?;
        }
    }
    Ok(names)
}

/// Each item once, where it first is.
pub(crate) fn each_once<T: Ord + Copies>(alloc: Global, items: &[T]) -> Result<Many<T>, NoMemory>
    ensures { IfOk result (λ once. once ≡ each_once T.eq items.now) }
{
    let mut once = Many::new(alloc);
    let mut seen = TextSet::new(alloc);
    'items: for item in items {
        if seen.insert(item.copy()?)? {
            once.push(item.copy()?)?;
        }
    }
    Ok(once)
}

/// The items that are not among these.
pub(crate) fn others_of<T: Ord + Copies>(
    alloc: Global,
    these: &[T],
    items: &[T],
) -> Result<Many<T>, NoMemory>
    ensures { IfOk result (λ others. others ≡ filter (λ item. not (list_any (T.eq item) these.now)) items.now) }
{
    let set = set_of(alloc, these)?;
    let mut others = Many::new(alloc);
    'items: for item in items {
        if !set.contains(item) {
            others.push(item.copy()?)?;
        }
    }
    Ok(others)
}

pub(crate) fn set_of<T: Ord + Copies>(alloc: Global, items: &[T]) -> Result<TextSet<T>, NoMemory>
    ensures { IfOk result (λ set. (item : T) → list_any (T.eq item) set ≡ list_any (T.eq item) items.now) }
{
    let mut set = TextSet::new(alloc);
    'items: for item in items {
        set.insert(item.copy()?)?;
    }
    Ok(set)
}

/// The paths of the messages' files, message by message.
pub(crate) fn paths_of_all(
    alloc: Global,
    snapshot: &Snapshot,
    ids: &[MessageId],
) -> Result<Many<Text>, NoMemory>
    ensures { IfOk result (λ paths. paths ≡ paths_of_all snapshot.now ids.now) }
{
    let mut paths = Many::new(alloc);
    let mut guess = SlotGuess::new();
    'ids: for id in ids {
        let behind = push_paths(&mut paths, snapshot, id, guess.hint())?;
        guess = guess.with(behind);
    }
    Ok(paths)
}

/// Adds the paths of a message, and tells where those of the next one are looked for first.
fn push_paths(
    paths: &mut Many<Text>,
    snapshot: &Snapshot,
    id: &MessageId,
    slot_hint: u64,
) -> Result<u64, NoMemory>
    ensures { IfOk result (λ _. paths.new ≡ paths.old ++ map (λ file. file.0) (files_of snapshot.now id.now)) }
{
    let Some((next, mut rest)) = snapshot.files_by_hint(id, slot_hint) else {
        return Ok(slot_hint);
    };
    'files: while let Some((path, _)) = rest.next() {
        paths.push(path.text().copy()?)?;
    }
    Ok(next)
}

/// The tags of the messages, in byte order. Those of the first one are looked for at `slot_hint` first.
pub(crate) fn tags_of_all(
    alloc: Global,
    snapshot: &Snapshot,
    ids: &[MessageId],
    slot_hint: u64,
) -> Result<Tags, NoMemory>
    ensures { IfOk result (λ tags. tags ≡ tags_of_all snapshot.now ids.now) }
{
    let mut tags = Tags::new(alloc);
    let mut slot_hint = slot_hint;
    'ids: for id in ids {
        slot_hint = add_tags(&mut tags, snapshot, id, slot_hint)?;
    }
    Ok(tags)
}

/// Adds the tags of a message, and tells where those of the next one are looked for first.
fn add_tags(
    tags: &mut Tags,
    snapshot: &Snapshot,
    id: &MessageId,
    slot_hint: u64,
) -> Result<u64, NoMemory>
    ensures { IfOk result (λ _. tags.new ≡ fold insert tags.old (tags_of snapshot.now id.now)) }
{
    let Some((next, more)) = snapshot.tags_by_hint(id, slot_hint) else {
        return Ok(slot_hint);
    };
    let mut rest = more.iter();
    'tags: while let Some(tag) = rest.next() {
        add_tag(tags, tag)?;
    }
    Ok(next)
}

/// Adds a copy of the tag, where it is not there yet.
fn add_tag(tags: &mut Tags, tag: &Tag) -> Result<(), NoMemory>
    ensures { OnOk result (tags.new ≡ with_tag tags.old tag.now) }
{
    // No code needs them one by one; that they are in order comes with it.
    let _ = tags.iter();
    if tags.has(tag) {
        return Ok(());
    }
    tags.add(tag.copy()?)
}
