//! A whole cursor as a list, for `nm_lookup`: a query's tree is worked out node by node to `Rising` lists.

ghost use Rattle.std.specs.Prelude.{◌≡◌, ◌≤◌, IfOk};
ghost use Rattle.nm_cursor.specs.Sets.{IsRising};

use crate::Cursor;
use nm_base::{Many, NoMemory, Steps};
use std::alloc::Global;
use std::sync::ledger::Ledger;

/// All documents that are left.
pub fn collect<C: Cursor, L: Ledger>(
    alloc: Global,
    cursor: C,
    steps: &mut Steps<L>,
) -> Result<Many<u32>, NoMemory>
    ensures ok { IfOk result (λ docs. docs ≡ C.left cursor) }
    ensures rising { IfOk result IsRising }
    ensures steps { steps.old ≤ steps.new }
{
    let mut cursor = cursor;
    let mut docs = Many::new(alloc);
    'docs: while let Some(doc) = cursor.next(steps) {
        docs.push(doc)?;
    }
    Ok(docs)
}
