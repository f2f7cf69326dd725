//! The union of two cursors, for the code above, and the lower of two documents, for `one` too.

ghost use Rattle.std.specs.Prelude.{◌≡◌};
ghost use Rattle.nm_cursor.specs.Ahead.{lower};
ghost use Rattle.nm_cursor.specs.Sets.{union};

use crate::Cursor;
use crate::peek::Peek;
use nm_base::Steps;
use std::marker::Model;
use std::sync::ledger::Ledger;

/// What either cursor has.
#[derive(Drop)]
pub struct Either<A: Cursor, B: Cursor> {
    first: Peek<A>,
    second: Peek<B>,
}

impl<A: Cursor, B: Cursor> Model for Either<A, B> {
    ghost use Rattle.std.specs.Prelude.{ℕ, List};
    ghost use Rattle.std.specs.Coded.{coded_ℕ, coded_list};
    ghost use Rattle.nm_cursor.specs.Sets.{union};

    ghost Value = { List ℕ };

    ghost coded = { coded_list coded_ℕ };

    ghost view = { λ e. union e.first e.second };
}

impl<A: Cursor, B: Cursor> Either<A, B> {
    pub fn new(first: A, second: B) -> Either<A, B>
        ensures { result ≡ union (A.left first) (B.left second) }
    {
        Either {
            first: Peek::new(first),
            second: Peek::new(second),
        }
    }
}

impl<A: Cursor, B: Cursor> Cursor for Either<A, B> {
    ghost left = { λ either. either };

    fn next<L: Ledger>(&mut self, steps: &mut Steps<L>) -> Option<u32> {
        self.seek(0, steps)
    }

    fn seek<L: Ledger>(&mut self, doc: u32, steps: &mut Steps<L>) -> Option<u32> {
        let first = self.first.reach(doc, steps);
        let second = self.second.reach(doc, steps);
        match lower(first, second) {
            None => None,
            Some(found) => {
                self.first.leave(found, steps);
                self.second.leave(found, steps);
                Some(found)
            }
        }
    }
}

/// The lower of two documents, where there are any.
pub(crate) fn lower(first: Option<u32>, second: Option<u32>) -> Option<u32>
    ensures { result ≡ lower first second }
{
    match (first, second) {
        (None, second) => second,
        (first, None) => first,
        (Some(first), Some(second)) => Some(first.min(second)),
    }
}
