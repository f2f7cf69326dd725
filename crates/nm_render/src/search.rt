//! The reply to a search: `nm_session` answers with it, and `nm_core` judges replies by it.

ghost use Rattle.std.specs.Prelude.{◌≡◌, true, IfOk};
ghost use Rattle.nm_model_answer.specs.Found.{found_text, search_found, summaries_text};
ghost use Rattle.nm_model_answer.specs.Search.{found_in_order};
ghost use Rattle.nm_dates.specs.Seconds.{IsMoment};
ghost use Rattle.nm_base.specs.declared.forms.Output.TheVariants.{Summary};
ghost use Rattle.nm_render.specs.ReadBack.{ReadsBack, found_data};

use crate::items::{files_text, messages_text, tags_text, threads_text};
use crate::order::ordered;
use crate::summary::summary_lines;
use crate::summary_json::summaries_json;
use nm_base::{Many, MessageId, NoMemory, Output, SearchAsk};
use nm_eval::matches;
use nm_query::Query;
use nm_state::Snapshot;
use std::alloc::Global;

/// The reply to a search whose query has this tree, of any kind and in either form. As JSON it is read back by the library as
/// what the model has.
pub fn search_reply(
    alloc: Global,
    snapshot: &Snapshot,
    ask: &SearchAsk,
    query: &Query,
    moment: i64,
) -> Result<Many<u8>, NoMemory>
    requires moment { IsMoment moment }
    ensures text { IfOk result (λ text. text ≡ search_found ask.now snapshot.now moment query.now) }
    ensures reads_back { ask.now.json ≡ true → IfOk result (λ text. ReadsBack (found_data ask.now.output ask.now snapshot.now (found_in_order ask.now snapshot.now moment query.now)) text) }
{
    let ids = matches(alloc, snapshot, query, moment, ask.exclude)?;
    // The tags are the same in any order.
    if let Output::Tags = ask.output {
        return tags_text(alloc, snapshot, ask, ids.as_slice());
    }
    let sorted = ordered(alloc, snapshot, ask.oldest, ids, 0)?;
    found_text(alloc, snapshot, ask, sorted.as_slice())
}

/// What is asked of messages that are in order.
fn found_text(
    alloc: Global,
    snapshot: &Snapshot,
    ask: &SearchAsk,
    ids: &[MessageId],
) -> Result<Many<u8>, NoMemory>
    ensures text { IfOk result (λ text. text ≡ found_text ask.now.output ask.now snapshot.now ids.now) }
    ensures reads_back { ask.now.json ≡ true → IfOk result (λ text. ReadsBack (found_data ask.now.output ask.now snapshot.now ids.now) text) }
{
    match ask.output {
        Output::Summary => summaries_text(alloc, snapshot, ask, ids),
        Output::Threads => threads_text(alloc, snapshot, ask, ids),
        Output::Messages => messages_text(alloc, ask, ids),
        Output::Files => files_text(alloc, snapshot, ask, ids),
        Output::Tags => tags_text(alloc, snapshot, ask, ids),
    }
}

fn summaries_text(
    alloc: Global,
    snapshot: &Snapshot,
    ask: &SearchAsk,
    ids: &[MessageId],
) -> Result<Many<u8>, NoMemory>
    ensures text { IfOk result (λ text. text ≡ summaries_text ask.now snapshot.now ids.now) }
    ensures reads_back { ask.now.json ≡ true → IfOk result (λ text. ReadsBack (found_data Summary ask.now snapshot.now ids.now) text) }
{
    if ask.json {
        return summaries_json(alloc, snapshot, ask, ids);
    }
    summary_lines(alloc, snapshot, ask, ids)
}
