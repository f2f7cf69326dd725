//! The commands `count`, `search` and `dump`: what the index alone answers. `lane_zero` and `other_lane` call it.

ghost use Rattle.std.specs.Prelude.{IfOk};
ghost use Rattle.nm_dates.specs.Seconds.{IsMoment};
ghost use Rattle.nm_line.specs.Line.{IsReadOff};

use crate::line_answer::{LineAnswer, replied};
use nm_base::NoMemory;
use nm_dump::dump_reply;
use nm_log::Setting;
use nm_model_answer::Request;
use nm_prepare::Reading;
use nm_render::{count_reply, counts_reply, search_reply};
use nm_state::Snapshot;
use std::alloc::Global;

/// Answers it on the index.
pub(crate) fn read_off(
    alloc: Global,
    setting: &Setting,
    snapshot: &Snapshot,
    reading: Reading,
) -> Result<LineAnswer, NoMemory>
    requires moment { IsMoment setting.now.moment }
    ensures { IfOk result (IsReadOff setting.now.moment snapshot.now reading) }
{
    let moment = setting.moment;
    match reading {
        Reading::Count(ask, query) => {
            let text = count_reply(alloc, snapshot, &ask, &query, moment)?;
            replied(Request::Count(ask), text)
        }
        Reading::Counts(ask, queries) => {
            let text = counts_reply(alloc, snapshot, &ask, queries.as_slice(), moment)?;
            replied(Request::Count(ask), text)
        }
        Reading::Search(ask, query) => {
            let text = search_reply(alloc, snapshot, &ask, &query, moment)?;
            replied(Request::Search(ask), text)
        }
        Reading::Dump(ask, query) => {
            let text = dump_reply(alloc, snapshot, &ask, &query, moment)?;
            replied(Request::Dump(ask), text)
        }
    }
}
