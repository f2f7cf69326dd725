//! Rows on what queries find, for `answers`; `reply_rows` lists ids too.

use crate::values::{moment_of, query_of};
use nm_base::MessageId;
use nm_eval::matches;
use nm_state::Snapshot;
use rows::{Lines, Row, RowError, text_of};
use std::alloc::Global;

/// The ids that the query finds at the moment after `?`, by their numbers, or a dash.
pub fn push_found(
    alloc: Global,
    lines: &mut Lines,
    row: &Row<'_>,
    index: &Snapshot,
    exclude: bool,
    text: &[u8],
) -> Result<(), RowError> {
    let moment = moment_of(row)?;
    let query = query_of(alloc, text_of(text)?)?;
    let ids = matches(alloc, index, query.get(), moment, exclude)?;
    lines.begin();
    push_ids(lines, ids.as_slice(), b"-");
    Ok(())
}

/// The ids with blanks between them, or what represents none.
pub fn push_ids(lines: &mut Lines, ids: &[MessageId], none: &[u8]) {
    match ids {
        [] => lines.push(none),
        [first, rest @ ..] => {
            lines.push(first.text().as_bytes());
            'ids: for id in rest {
                lines.push_after_blank(id.text().as_bytes());
            }
        }
    }
}
