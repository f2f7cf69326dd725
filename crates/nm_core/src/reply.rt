//! Whether a reply may have its text, which `machine` asks at each reply.

ghost use Rattle.std.specs.Prelude.{◌≡◌, ◌&&◌, ◌||◌, [], false, IfOk, is_ok, MatchOption, not, Ok};
ghost use Rattle.nm_base.specs.Order.{same_text};
ghost use Rattle.nm_model_answer.specs.Answer.{is_reply};
ghost use Rattle.nm_model_answer.specs.Count.{count_answer};
ghost use Rattle.nm_model_answer.specs.Dump.{dump_answer};
ghost use Rattle.nm_model_answer.specs.Found.{search_answer};
ghost use Rattle.nm_dates.specs.Seconds.{IsMoment};
ghost use Rattle.nm_query.specs.Answers.{answer_of};

use nm_base::{CountAsk, DumpAsk, NoMemory, SearchAsk, Text};
use nm_dump::dump_reply;
use nm_model_answer::Request;
use nm_query::{Query, QueryError, parse};
use nm_render::{count_reply, search_reply};
use nm_state::Snapshot;
use std::alloc::Global;

/// Whether the request may be answered so, over this index at this moment.
pub(crate) fn may_reply(
    alloc: Global,
    index: &Snapshot,
    request: &Request,
    text: &[u8],
    moment: i64,
) -> Result<bool, NoMemory>
    requires moment { IsMoment moment }
    ensures { IfOk result (λ may. may ≡ is_reply index.now moment request.now text.now) }
{
    match request {
        Request::New | Request::Show(_) | Request::Tag(_) | Request::Restore(_) => Ok(true),
        Request::Count(ask) => may_count(alloc, index, ask, text, moment),
        Request::Search(ask) => may_search(alloc, index, ask, text, moment),
        Request::Dump(ask) => may_dump(alloc, index, ask, text, moment),
    }
}

fn may_count(
    alloc: Global,
    index: &Snapshot,
    ask: &CountAsk,
    text: &[u8],
    moment: i64,
) -> Result<bool, NoMemory>
    requires moment { IsMoment moment }
    ensures { IfOk result (λ may. may ≡ (not (not ask.now.batch) || (is_ok (answer_of ask.now.query) && same_text text.now (count_answer ask.now [] index.now moment)))) }
{
    if ask.batch {
        return Ok(true);
    }
    let Some(query) = tree_of(alloc, &ask.query)? else {
        return Ok(false);
    };
    let counted = count_reply(alloc, index, ask, &query, moment)?;
    Ok(text == counted.as_slice())
}

fn may_search(
    alloc: Global,
    index: &Snapshot,
    ask: &SearchAsk,
    text: &[u8],
    moment: i64,
) -> Result<bool, NoMemory>
    requires moment { IsMoment moment }
    ensures { IfOk result (λ may. may ≡ (is_ok (answer_of ask.now.query) && same_text text.now (search_answer ask.now index.now moment))) }
{
    let Some(query) = tree_of(alloc, &ask.query)? else {
        return Ok(false);
    };
    let found = search_reply(alloc, index, ask, &query, moment)?;
    Ok(text == found.as_slice())
}

fn may_dump(
    alloc: Global,
    index: &Snapshot,
    ask: &DumpAsk,
    text: &[u8],
    moment: i64,
) -> Result<bool, NoMemory>
    requires moment { IsMoment moment }
    ensures { IfOk result (λ may. may ≡ (is_ok (answer_of ask.now.query) && same_text text.now (dump_answer ask.now index.now moment))) }
{
    let Some(query) = tree_of(alloc, &ask.query)? else {
        return Ok(false);
    };
    let dumped = dump_reply(alloc, index, ask, &query, moment)?;
    Ok(text == dumped.as_slice())
}

/// The tree of a query, where its text has one.
fn tree_of(alloc: Global, text: &Text) -> Result<Option<Query>, NoMemory>
    ensures { IfOk result (λ found. MatchOption found (is_ok (answer_of text.now) ≡ false) (λ query. answer_of text.now ≡ Ok query)) }
{
    match parse(alloc, text.as_str()) {
        Ok(query) => Ok(Some(query)),
        Err(QueryError::NoMemory) => Err(NoMemory),
        Err(QueryError::BadQuery { .. } | QueryError::BadDate { .. } | QueryError::Limit(_)) => {
            Ok(None)
        }
    }
}
