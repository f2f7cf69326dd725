//! The call `matches`: the messages of a snapshot that a query finds. `nm_render`, `nm_writer` and `nm_dump` ask it.

ghost use Rattle.std.specs.Prelude.{◌≡◌, ◌∷◌, ◌++◌, ◌&&◌, [], not, IfOk, OnOk};
ghost use Rattle.std.specs.List.{filter};
ghost use Rattle.nm_base.specs.Order.{has_text};
ghost use Rattle.nm_dates.specs.Seconds.{IsMoment};
ghost use Rattle.nm_model_answer.specs.Matches.{is_match, matches_of};
ghost use Rattle.nm_model_answer.specs.Test.{passes};
ghost use Rattle.nm_model_answer.specs.View.{view_of};
ghost use Rattle.nm_eval.specs.Exclusion.{leaves_out};

use crate::exclusion::{Exclusion, find_exclusion, leaves_out, left_out};
use crate::laws::what_passes_is_named;
use crate::message::Message;
use crate::named_ids::named_ids;
use crate::numbers::by_numbers;
use crate::prepared_query::prepared;
use crate::query_test::passes;
use nm_base::{Copies, Many, MessageId, NoMemory, TextSet};
use nm_query::Query;
use nm_state::Snapshot;
use std::alloc::Global;

/// The ids of the live messages that pass the query at a moment, by their numbers. Where `exclude` is set, a message that
/// has one of the tags `deleted` and `spam` is left out, unless the query names that tag. Of a query that names ids only the
/// messages of these are tested. What takes memory is the ids; those that the query names, with their numbers; or else those that are left out,
/// and the query as it is prepared once for all messages.
pub fn matches(
    alloc: Global,
    snapshot: &Snapshot,
    query: &Query,
    moment: i64,
    exclude: bool,
) -> Result<Many<MessageId>, NoMemory>
    requires { IsMoment moment }
    ensures { IfOk result (λ ids. ids ≡ matches_of snapshot.now query.now moment exclude) }
{
    match named_ids(alloc, query)? {
        Some(ids) => {
            what_passes_is_named();
            let live = by_numbers(alloc, snapshot, ids.as_slice())?;
            let found = matches_among(alloc, snapshot, live.as_slice(), query, moment, exclude)?;
            Ok(found)
        }
        None => {
            let found = all_matches(alloc, snapshot, query, moment, exclude)?;
            Ok(found)
        }
    }
}

/// The matches among these messages, each of which is tested.
fn matches_among(
    alloc: Global,
    snapshot: &Snapshot,
    live: &[MessageId],
    query: &Query,
    moment: i64,
    exclude: bool,
) -> Result<Many<MessageId>, NoMemory>
    requires { IsMoment moment }
    ensures { IfOk result (λ ids. ids ≡ filter (λ id. is_match query.now moment exclude (view_of snapshot.now id)) live.now) }
{
    let mut found = Many::new(alloc);
    let excluding = find_exclusion(query, exclude);
    'ids: for id in live {
        let message = Message::of(snapshot, id);
        if !is_match(query, moment, excluding, &message) {
            continue;
        }
        add(&mut found, id)?;
    }
    Ok(found)
}

/// The matches among all live messages, by the query as it is prepared for many.
fn all_matches(
    alloc: Global,
    snapshot: &Snapshot,
    query: &Query,
    moment: i64,
    exclude: bool,
) -> Result<Many<MessageId>, NoMemory>
    requires { IsMoment moment }
    ensures { IfOk result (λ ids. ids ≡ matches_of snapshot.now query.now moment exclude) }
{
    let mut found = Many::new(alloc);
    let out = left_out(alloc, snapshot, find_exclusion(query, exclude))?;
    let asked = prepared(alloc, query, moment)?;
    let mut rest = snapshot.messages();
    'messages: while let Some((id, files)) = rest.next() {
        let message = Message::with_files(snapshot, id, files, rest.slot_hint());
        if passes_within(&message, &asked, moment, &out) {
            add(&mut found, id)?;
        }
    }
    Ok(found)
}

/// Says whether the message passes the query, and is none of those that are left out.
fn passes_within(
    message: &Message<'_>,
    query: &Query,
    moment: i64,
    left_out: &TextSet<MessageId>,
) -> bool
    requires { IsMoment moment }
    ensures { result ≡ (passes query.now message.now moment && not (has_text left_out.now message.now.id)) }
{
    if left_out.contains(message.id()) {
        return false;
    }
    passes(query, message, moment)
}

fn add(found: &mut Many<MessageId>, id: &MessageId) -> Result<(), NoMemory>
    ensures { OnOk result (found.new ≡ found.old ++ id.now ∷ []) }
{
    found.push(id.copy()?)?;
    Ok(())
}

/// Says whether the message passes the query, and has no tag that keeps it out.
fn is_match(query: &Query, moment: i64, excluding: Exclusion, message: &Message<'_>) -> bool
    requires { IsMoment moment }
    ensures { result ≡ (passes query.now message.now moment && not (leaves_out excluding message.now)) }
{
    if leaves_out(excluding, message) {
        return false;
    }
    passes(query, message, moment)
}
