//! The reply to a dump: `nm_session` answers with it, and `nm_core` judges replies by it.

ghost use Rattle.std.specs.Prelude.{◌≡◌, IfOk};
ghost use Rattle.nm_model_answer.specs.Dump.{dump_found};
ghost use Rattle.nm_dates.specs.Seconds.{IsMoment};

use crate::dump_writer::dump;
use nm_base::{DumpAsk, Many, NoMemory};
use nm_eval::matches;
use nm_query::Query;
use nm_state::Snapshot;
use std::alloc::Global;

/// The reply to a dump whose query has this tree. No message is left out for its tags.
pub fn dump_reply(
    alloc: Global,
    snapshot: &Snapshot,
    ask: &DumpAsk,
    query: &Query,
    moment: i64,
) -> Result<Many<u8>, NoMemory>
    requires moment { IsMoment moment }
    ensures { IfOk result (λ text. text ≡ dump_found ask.now snapshot.now moment query.now) }
{
    let ids = matches(alloc, snapshot, query, moment, false)?;
    let text = dump(alloc, snapshot, &ids, ask.form)?;
    Ok(text)
}
