//! The symmetric difference of two cursors, for the code above.

ghost use Rattle.std.specs.Prelude.{◌≡◌, ◌≤◌};
ghost use Rattle.nm_cursor.specs.Sets.{Takes, symmetric_difference};

use crate::Cursor;
use crate::either::lower;
use crate::peek::Peek;
use nm_base::Steps;
use std::marker::Model;
use std::sync::ledger::Ledger;

/// What one of two cursors has and the other has not.
#[derive(Drop)]
pub struct One<A: Cursor, B: Cursor> {
    first: Peek<A>,
    second: Peek<B>,
}

impl<A: Cursor, B: Cursor> Model for One<A, B> {
    ghost use Rattle.std.specs.Prelude.{ℕ, List};
    ghost use Rattle.std.specs.Coded.{coded_ℕ, coded_list};
    ghost use Rattle.nm_cursor.specs.Sets.{symmetric_difference};

    ghost Value = { List ℕ };

    ghost coded = { coded_list coded_ℕ };

    ghost view = { λ o. symmetric_difference o.first o.second };
}

impl<A: Cursor, B: Cursor> One<A, B> {
    pub fn new(first: A, second: B) -> One<A, B>
        ensures { result ≡ symmetric_difference (A.left first) (B.left second) }
    {
        One {
            first: Peek::new(first),
            second: Peek::new(second),
        }
    }
}

impl<A: Cursor, B: Cursor> Cursor for One<A, B> {
    ghost left = { λ one. one };

    fn next<L: Ledger>(&mut self, steps: &mut Steps<L>) -> Option<u32> {
        self.seek(0, steps)
    }

    fn seek<L: Ledger>(&mut self, doc: u32, steps: &mut Steps<L>) -> Option<u32> {
        self.first.reach(doc, steps);
        self.second.reach(doc, steps);
        differ(&mut self.first, &mut self.second, steps)
    }
}

/// Takes the first document that not both have.
fn differ<A: Cursor, B: Cursor, L: Ledger>(
    first: &mut Peek<A>,
    second: &mut Peek<B>,
    steps: &mut Steps<L>,
) -> Option<u32>
    ensures taken { Takes (symmetric_difference first.old second.old) result (symmetric_difference first.new second.new) }
    ensures steps { steps.old ≤ steps.new }
{
    'pairs: while let Some(found) = lower(first.reach(0, steps), second.reach(0, steps)) {
        let in_first = first.leave(found, steps);
        let in_second = second.leave(found, steps);
        if in_first != in_second {
            return Some(found);
        }
    }
    None
}
