//! What every cursor is to the code above; `nm_filter` and the readers of segments have more of them.

ghost use Rattle.std.specs.Prelude.{ℕ, ◌≤◌, List};
ghost use Rattle.nm_cursor.specs.Sets.{IsRising, Takes, from};

use nm_base::Steps;
use std::sync::ledger::Ledger;

/// Goes over the numbers of documents, which rise.
pub trait Cursor: Drop {
    /// The documents that are left.
    ghost left: { Self → List ℕ };

    /// Takes the first document that is left.
    fn next<L: Ledger>(&mut self, steps: &mut Steps<L>) -> Option<u32>
        ensures taken { Takes (left self.old) result (left self.new) }
        ensures rising { IsRising (left self.old) }
        ensures steps { steps.old ≤ steps.new };

    /// Leaves out the documents below `doc`, and takes the first of the others.
    fn seek<L: Ledger>(&mut self, doc: u32, steps: &mut Steps<L>) -> Option<u32>
        ensures taken { Takes (from doc (left self.old)) result (left self.new) }
        ensures rising { IsRising (left self.old) }
        ensures steps { steps.old ≤ steps.new }
    {
        'below: while let Some(found) = self.next(steps) {
            if found >= doc {
                return Some(found);
            }
        }
        None
    }
}
