//! A cursor of which one document may be read ahead: `without`, `either` and `one` compare before they take.

ghost use Rattle.std.specs.Prelude.{◌≡◌, ◌≤◌, slice_get};
ghost use Rattle.nm_cursor.specs.Ahead.{IsAheadOf, ahead_of, with_ahead};
ghost use Rattle.nm_cursor.specs.Sets.{IsRising, Takes, above, from, has};

use crate::Cursor;
use nm_base::Steps;
use std::marker::Model;
use std::sync::ledger::Ledger;

/// What is known of the next document.
#[derive(Clone, Copy)]
pub(crate) enum Ahead {
    Unread,
    /// It was taken from the cursor, and is still left here.
    At(u32),
    Ended,
}

impl Ahead {
    fn of(found: Option<u32>) -> Ahead
        ensures { result ≡ ahead_of found }
    {
        match found {
            Some(doc) => Ahead::At(doc),
            None => Ahead::Ended,
        }
    }
}

/// A cursor and its next document.
#[derive(Drop)]
pub(crate) struct Peek<C: Cursor> {
    cursor: C,
    ahead: Ahead,
}

impl<C: Cursor> Model for Peek<C> {
    ghost use Rattle.std.specs.Prelude.{ℕ, List};
    ghost use Rattle.std.specs.Coded.{coded_ℕ, coded_list};
    ghost use Rattle.nm_cursor.specs.Ahead.{IsAheadOf, with_ahead};

    ghost Value = { List ℕ };

    ghost coded = { coded_list coded_ℕ };

    ghost view = { λ p. with_ahead p.ahead (C.left p.cursor) };

    ghost invariant = { λ p. IsAheadOf p.ahead (C.left p.cursor) };
}

impl<C: Cursor> Peek<C> {
    pub(crate) fn new(cursor: C) -> Peek<C>
        ensures { result ≡ C.left cursor }
    {
        Peek {
            cursor,
            ahead: Ahead::Unread,
        }
    }

    /// Leaves out the documents below `doc`. The first of the others stays.
    pub(crate) fn reach<L: Ledger>(&mut self, doc: u32, steps: &mut Steps<L>) -> Option<u32>
        ensures first { result ≡ slice_get self.new 0 }
        ensures rest { self.new ≡ from doc self.old }
        ensures rising { IsRising self.old }
        ensures steps { steps.old ≤ steps.new }
    {
        let found = take_from(&mut self.cursor, self.ahead, doc, steps);
        self.ahead = Ahead::of(found);
        found
    }

    /// Leaves out the documents up to `doc`, and tells whether it was among them.
    pub(crate) fn leave<L: Ledger>(&mut self, doc: u32, steps: &mut Steps<L>) -> bool
        ensures had { result ≡ has self.old doc }
        ensures rest { self.new ≡ above doc self.old }
        ensures rising { IsRising self.old }
        ensures steps { steps.old ≤ steps.new }
    {
        let Some(found) = take_from(&mut self.cursor, self.ahead, doc, steps) else {
            self.ahead = Ahead::Ended;
            return false;
        };
        if found == doc {
            self.ahead = Ahead::Unread;
            return true;
        }
        self.ahead = Ahead::At(found);
        false
    }
}

/// Leaves out the documents below `doc`, and takes the first of the others, be it read ahead or not.
fn take_from<C: Cursor, L: Ledger>(
    cursor: &mut C,
    ahead: Ahead,
    doc: u32,
    steps: &mut Steps<L>,
) -> Option<u32>
    requires { IsAheadOf ahead (C.left cursor.old) }
    ensures taken { Takes (from doc (with_ahead ahead (C.left cursor.old))) result (C.left cursor.new) }
    ensures rising { IsRising (with_ahead ahead (C.left cursor.old)) }
    ensures steps { steps.old ≤ steps.new }
{
    match ahead {
        Ahead::Ended => None,
        Ahead::Unread => cursor.seek(doc, steps),
        Ahead::At(found) => {
            if found < doc {
                return cursor.seek(doc, steps);
            }
            Some(found)
        }
    }
}
