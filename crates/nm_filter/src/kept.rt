//! A cursor that leaves out what a condition doesn't hold of, for the code above.

ghost use Rattle.std.specs.Prelude.{◌≡◌, ◌≤◌, ◌∷◌};
ghost use Rattle.std.specs.List.{filter};
ghost use Rattle.nm_cursor.specs.Sets.{IsRising, Takes};

use crate::Condition;
use nm_base::Steps;
use nm_cursor::Cursor;
use std::marker::Model;
use std::sync::ledger::Ledger;

/// The documents of a cursor of which a condition holds.
#[derive(Drop)]
pub struct Kept<C: Cursor, P: Condition> {
    inner: C,
    condition: P,
}

impl<C: Cursor, P: Condition> Model for Kept<C, P> {
    ghost use Rattle.std.specs.Prelude.{ℕ, List};
    ghost use Rattle.std.specs.Coded.{coded_ℕ, coded_list};
    ghost use Rattle.std.specs.List.{filter};

    ghost Value = { List ℕ };

    ghost coded = { coded_list coded_ℕ };

    ghost view = { λ k. filter (P.holds k.condition) (C.left k.inner) };
}

impl<C: Cursor, P: Condition> Kept<C, P> {
    pub fn new(inner: C, condition: P) -> Kept<C, P>
        ensures { result ≡ filter (P.holds condition) (C.left inner) }
    {
        Kept { inner, condition }
    }
}

impl<C: Cursor, P: Condition> Cursor for Kept<C, P> {
    ghost left = { λ kept. kept };

    fn next<L: Ledger>(&mut self, steps: &mut Steps<L>) -> Option<u32> {
        match self.inner.next(steps) {
            None => None,
            Some(found) => pass(&mut self.inner, &self.condition, found, steps),
        }
    }

    fn seek<L: Ledger>(&mut self, doc: u32, steps: &mut Steps<L>) -> Option<u32> {
        match self.inner.seek(doc, steps) {
            None => None,
            Some(found) => pass(&mut self.inner, &self.condition, found, steps),
        }
    }
}

/// Takes the first document of which the condition holds, where `found` was taken from the cursor.
fn pass<C: Cursor, P: Condition, L: Ledger>(
    inner: &mut C,
    condition: &P,
    found: u32,
    steps: &mut Steps<L>,
) -> Option<u32>
    ensures taken { Takes (filter (P.holds condition.now) (found ∷ C.left inner.old)) result (filter (P.holds condition.now) (C.left inner.new)) }
    ensures steps { steps.old ≤ steps.new }
{
    let mut found = found;
    'failing: while !condition.test(found) {
        match inner.next(steps) {
            None => return None,
            Some(next) => found = next,
        }
    }
    Some(found)
}
