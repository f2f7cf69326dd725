//! The reply to a count: `nm_session` answers with it, and `nm_core` judges replies by it.

ghost use Rattle.std.specs.Prelude.{◌≡◌, ◌+◌, ◌++◌, [], ◌∷◌, fold, length, IfOk, OnOk};
ghost use Rattle.std.specs.BTreeSet.{insert_key};
ghost use Rattle.std.specs.Fmt.{decimal};
ghost use Rattle.std.specs.List.{filter_map};
ghost use Rattle.std.specs.Ordering.{nat_cmp};
ghost use Rattle.nm_model_answer.specs.Count.{count_found, count_text, counted, counts_found, files_of_all, thread_names};
ghost use Rattle.nm_model_answer.specs.View.{files_of};
ghost use Rattle.nm_dates.specs.Seconds.{IsMoment};
ghost use Rattle.nm_model_index.specs.Index.{rows_of};
ghost use Rattle.nm_threads.specs.Name.{thread_name};

use itoa::Buffer;
use nm_base::{CountAsk, Many, MessageId, NoMemory, Output};
use nm_eval::matches;
use nm_query::Query;
use nm_state::{SlotGuess, Snapshot};
use std::alloc::Global;
use std::collections::BTreeSet;

/// The reply to a count whose query has this tree.
pub fn count_reply(
    alloc: Global,
    snapshot: &Snapshot,
    ask: &CountAsk,
    query: &Query,
    moment: i64,
) -> Result<Many<u8>, NoMemory>
    requires moment { IsMoment moment }
    ensures { IfOk result (λ text. text ≡ count_found ask.now snapshot.now moment query.now) }
{
    let exclude = ask.exclude;
    let ids = matches(alloc, snapshot, query, moment, exclude)?;
    count_text(alloc, snapshot, ids.as_slice(), ask.output)
}

/// The replies to a count for each of these queries, one after the other.
pub fn counts_reply(
    alloc: Global,
    snapshot: &Snapshot,
    ask: &CountAsk,
    queries: &[Query],
    moment: i64,
) -> Result<Many<u8>, NoMemory>
    requires moment { IsMoment moment }
    ensures { IfOk result (λ text. text ≡ counts_found ask.now snapshot.now moment queries.now) }
{
    let mut text = Many::new(alloc);
    'queries: for query in queries {
        let line = count_reply(alloc, snapshot, ask, query, moment)?;
        text.extend_from_slice(line.as_slice())?;
    }
    Ok(text)
}

/// How many of what is asked the messages come to, and LF.
fn count_text(
    alloc: Global,
    snapshot: &Snapshot,
    ids: &[MessageId],
    output: Output,
) -> Result<Many<u8>, NoMemory>
    ensures { IfOk result (λ text. text ≡ count_text output snapshot.now ids.now) }
{
    let number = counted(alloc, snapshot, ids, output)?;
    number_line(alloc, number)
}

fn counted(
    alloc: Global,
    snapshot: &Snapshot,
    ids: &[MessageId],
    output: Output,
) -> Result<u64, NoMemory>
    ensures { IfOk result (λ number. number ≡ counted output snapshot.now ids.now) }
{
    match output {
        Output::Threads => count_threads(alloc, snapshot, ids),
        Output::Messages => Ok(ids.len() as u64),
        Output::Files => count_files(snapshot, ids, 0),
        Output::Summary | Output::Tags => Ok(0),
    }
}

/// How many threads the messages are of.
fn count_threads(alloc: Global, snapshot: &Snapshot, ids: &[MessageId]) -> Result<u64, NoMemory>
    ensures { IfOk result (λ number. number ≡ length (thread_names snapshot.now ids.now)) }
{
    let mut names = BTreeSet::new(alloc);
    let mut guess = SlotGuess::new();
    'ids: for id in ids {
        guess = add_thread(&mut names, snapshot, id, guess)?;
    }
    Ok(names.len() as u64)
}

/// The thread of a message, and the walk with it.
fn add_thread(
    names: &mut BTreeSet<u64>,
    snapshot: &Snapshot,
    id: &MessageId,
    guess: SlotGuess,
) -> Result<SlotGuess, NoMemory>
    ensures { OnOk result (names.new.keys ≡ fold (insert_key nat_cmp) names.old.keys (filter_map (thread_name (rows_of snapshot.now) snapshot.now.entries) (id.now ∷ []))) }
{
    let (behind, thread) = snapshot.thread_by_hint(id, guess.hint());
    if let Some(name) = thread {
        names.insert(name)?;
    }
    Ok(guess.with(behind))
}

/// How many files the messages have. Those of the first one are looked for at `slot_hint` first.
pub(crate) fn count_files(
    snapshot: &Snapshot,
    ids: &[MessageId],
    slot_hint: u64,
) -> Result<u64, NoMemory>
    ensures { IfOk result (λ number. number ≡ length (files_of_all snapshot.now ids.now)) }
{
    let mut number = 0;
    let mut slot_hint = slot_hint;
    'ids: for id in ids {
        let (counted, next) = add_files(number, snapshot, id, slot_hint)?;
        number = counted;
        slot_hint = next;
    }
    Ok(number)
}

/// The number with the files of a message counted too, and where those of the next one are looked for first. More than a number
/// can count finds no memory.
fn add_files(
    before: u64,
    snapshot: &Snapshot,
    id: &MessageId,
    slot_hint: u64,
) -> Result<(u64, u64), NoMemory>
    ensures { IfOk result (λ told. told.0 ≡ before + length (files_of snapshot.now id.now)) }
{
    let Some((next, mut rest)) = snapshot.files_by_hint(id, slot_hint) else {
        return Ok((before, slot_hint));
    };
    let mut number = before;
    'files: while rest.next().is_some() {
        number = one_more(number)?;
    }
    Ok((number, next))
}

fn one_more(number: u64) -> Result<u64, NoMemory>
    ensures { IfOk result (λ next. next ≡ number + 1) }
{
    number.checked_add(1).ok_or(NoMemory)
}

fn number_line(alloc: Global, number: u64) -> Result<Many<u8>, NoMemory>
    ensures { IfOk result (λ line. line ≡ decimal number ++ 10 ∷ []) }
{
    let mut buffer = Buffer::new();
    let mut line = Many::from_slice(alloc, buffer.format(number).as_bytes())?;
    line.push(b'\n')?;
    Ok(line)
}
