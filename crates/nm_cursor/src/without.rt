//! The difference of two cursors, for the code above; the second leaps to what the first has.

ghost use Rattle.std.specs.Prelude.{◌≡◌, ◌≤◌, ◌∷◌};
ghost use Rattle.nm_cursor.specs.Sets.{IsRising, Takes, difference};

use crate::Cursor;
use crate::peek::Peek;
use nm_base::Steps;
use std::marker::Model;
use std::sync::ledger::Ledger;

/// What the first cursor has and the second has not.
#[derive(Drop)]
pub struct Without<A: Cursor, B: Cursor> {
    first: A,
    second: Peek<B>,
}

impl<A: Cursor, B: Cursor> Model for Without<A, B> {
    ghost use Rattle.std.specs.Prelude.{ℕ, List};
    ghost use Rattle.std.specs.Coded.{coded_ℕ, coded_list};
    ghost use Rattle.nm_cursor.specs.Sets.{difference};

    ghost Value = { List ℕ };

    ghost coded = { coded_list coded_ℕ };

    ghost view = { λ w. difference (A.left w.first) w.second };
}

impl<A: Cursor, B: Cursor> Without<A, B> {
    pub fn new(first: A, second: B) -> Without<A, B>
        ensures { result ≡ difference (A.left first) (B.left second) }
    {
        Without {
            first,
            second: Peek::new(second),
        }
    }
}

impl<A: Cursor, B: Cursor> Cursor for Without<A, B> {
    ghost left = { λ without. without };

    fn next<L: Ledger>(&mut self, steps: &mut Steps<L>) -> Option<u32> {
        self.seek(0, steps)
    }

    fn seek<L: Ledger>(&mut self, doc: u32, steps: &mut Steps<L>) -> Option<u32> {
        match self.first.seek(doc, steps) {
            None => None,
            Some(wanted) => pass(&mut self.first, &mut self.second, wanted, steps),
        }
    }
}

/// Takes the first document that the second cursor hasn't, where `wanted` was taken from the first.
fn pass<A: Cursor, B: Cursor, L: Ledger>(
    first: &mut A,
    second: &mut Peek<B>,
    wanted: u32,
    steps: &mut Steps<L>,
) -> Option<u32>
    requires { IsRising (wanted ∷ A.left first.old) }
    ensures taken { Takes (difference (wanted ∷ A.left first.old) second.old) result (difference (A.left first.new) second.new) }
    ensures steps { steps.old ≤ steps.new }
{
    let mut wanted = wanted;
    'had: while second.leave(wanted, steps) {
        match first.next(steps) {
            None => return None,
            Some(next) => wanted = next,
        }
    }
    Some(wanted)
}
