//! The intersection of two cursors, for the code above; each leaps to what the other has found.

ghost use Rattle.std.specs.Prelude.{◌≡◌, ◌≤◌, ◌∷◌};
ghost use Rattle.nm_cursor.specs.Sets.{IsRising, Takes, intersection};

use crate::Cursor;
use nm_base::Steps;
use std::marker::Model;
use std::sync::ledger::Ledger;

/// What both cursors have.
#[derive(Drop)]
pub struct Both<A: Cursor, B: Cursor> {
    first: A,
    second: B,
}

impl<A: Cursor, B: Cursor> Model for Both<A, B> {
    ghost use Rattle.std.specs.Prelude.{ℕ, List};
    ghost use Rattle.std.specs.Coded.{coded_ℕ, coded_list};
    ghost use Rattle.nm_cursor.specs.Sets.{intersection};

    ghost Value = { List ℕ };

    ghost coded = { coded_list coded_ℕ };

    ghost view = { λ b. intersection (A.left b.first) (B.left b.second) };
}

impl<A: Cursor, B: Cursor> Both<A, B> {
    pub fn new(first: A, second: B) -> Both<A, B>
        ensures { result ≡ intersection (A.left first) (B.left second) }
    {
        Both { first, second }
    }
}

impl<A: Cursor, B: Cursor> Cursor for Both<A, B> {
    ghost left = { λ both. both };

    fn next<L: Ledger>(&mut self, steps: &mut Steps<L>) -> Option<u32> {
        self.seek(0, steps)
    }

    fn seek<L: Ledger>(&mut self, doc: u32, steps: &mut Steps<L>) -> Option<u32> {
        match self.first.seek(doc, steps) {
            None => None,
            Some(wanted) => meet(&mut self.first, &mut self.second, wanted, steps),
        }
    }
}

/// Takes the first document that both have, where `wanted` was taken from the first cursor.
fn meet<A: Cursor, B: Cursor, L: Ledger>(
    first: &mut A,
    second: &mut B,
    wanted: u32,
    steps: &mut Steps<L>,
) -> Option<u32>
    requires { IsRising (wanted ∷ A.left first.old) }
    ensures taken { Takes (intersection (wanted ∷ A.left first.old) (B.left second.old)) result (intersection (A.left first.new) (B.left second.new)) }
    ensures steps { steps.old ≤ steps.new }
{
    let mut wanted = wanted;
    'leaps: while let Some(found) = second.seek(wanted, steps) {
        if found == wanted {
            return Some(found);
        }
        match first.seek(found, steps) {
            None => return None,
            Some(next) if next == found => return Some(next),
            Some(next) => wanted = next,
        }
    }
    None
}
