//! The rows of mails that went while their thread is there, for `nm_parts` and `nm_state`.

ghost use Rattle.std.specs.Prelude.{◌≡◌, not, Some, IfOk, MatchOption, OnOk, Contains};
ghost use Rattle.std.specs.BTreeSet.{insert_key};
ghost use Rattle.std.specs.List.{filter};
ghost use Rattle.std.specs.Map.{values_of};
ghost use Rattle.nm_base.specs.Order.{has_text, same_text};
ghost use Rattle.nm_base.specs.declared.facts.LinkRow.{LinkRow};
ghost use Rattle.nm_model_index.specs.Index.{row_cmp};
ghost use Rattle.nm_tables.specs.FileTable.{at_text};
ghost use Rattle.nm_tables.specs.Kept.{AreKept, HasNoRow};

use crate::measured_map::MeasuredMap;
use crate::row_bytes::RowBytes;
use nm_base::{Copies, LinkRow, MessageId, NoMemory};
use nm_shared::Shared;
use std::alloc::Global;

/// Keeps a row, at its place in the order.
pub fn keep_row(
    alloc: Global,
    kept: &mut MeasuredMap<RowBytes, Shared<LinkRow>>,
    row: LinkRow,
) -> Result<(), NoMemory>
    requires { AreKept kept.old }
    ensures kept { OnOk result (AreKept kept.new) }
    ensures rows { OnOk result (values_of kept.new ≡ insert_key row_cmp (values_of kept.old) row) }
    ensures there { OnOk result (Contains (values_of kept.new) row) }
{
    let bytes = RowBytes::of(alloc, &row)?;
    if let Some(there) = kept.get(&bytes) {
        // Rows with the same bytes are the same.
        if *there.get() == row {
            return Ok(());
        }
        return Err(NoMemory);
    }
    kept.insert(bytes, Shared::new(alloc, row)?)?;
    Ok(())
}

/// The bytes of a row of the mail, if there is one.
fn row_of_mail(
    alloc: Global,
    kept: &MeasuredMap<RowBytes, Shared<LinkRow>>,
    id: &MessageId,
) -> Result<Option<RowBytes>, NoMemory>
    requires { AreKept kept.now }
    ensures { IfOk result (λ found. MatchOption found (HasNoRow (values_of kept.now) id.now) (λ bytes. (row : LinkRow) × (row.id ≡ id.now) × (at_text bytes kept.now ≡ Some row))) }
{
    let start = RowBytes::start(alloc, id)?;
    let mut ahead = kept.pairs().iter_from(&start);
    let Some(first) = ahead.next() else {
        return Ok(None);
    };
    if !first.0.begins_with(&start) {
        return Ok(None);
    }
    // Rows that begin with the bytes of an id are of its mail.
    if first.1.get().id != *id {
        return Err(NoMemory);
    }
    let bytes = first.0.copy()?;
    Ok(Some(bytes))
}

/// Lets go the rows of a mail.
fn forget_mail(
    alloc: Global,
    kept: &mut MeasuredMap<RowBytes, Shared<LinkRow>>,
    id: &MessageId,
) -> Result<(), NoMemory>
    requires { AreKept kept.old }
    ensures kept { OnOk result (AreKept kept.new) }
    ensures rows { OnOk result (values_of kept.new ≡ filter (λ row. not (same_text row.id id.now)) (values_of kept.old)) }
{
    'rows: while let Some(bytes) = row_of_mail(alloc, kept, id)? {
        kept.remove(&bytes)?;
    }
    Ok(())
}

/// Lets go the rows of these mails. No other row is looked at.
pub fn forget_rows(
    alloc: Global,
    kept: &mut MeasuredMap<RowBytes, Shared<LinkRow>>,
    ids: &[MessageId],
) -> Result<(), NoMemory>
    requires { AreKept kept.old }
    ensures kept { OnOk result (AreKept kept.new) }
    ensures rows { OnOk result (values_of kept.new ≡ filter (λ row. not (has_text ids.now row.id)) (values_of kept.old)) }
{
    'ids: for id in ids {
        forget_mail(alloc, kept, id)?;
    }
    Ok(())
}
