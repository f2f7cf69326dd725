//! A cursor over a rising list in memory: `nm_phrase` has one, and what `collect` gives is gone over again.

ghost use Rattle.std.specs.Prelude.{◌≡◌, ◌<◌, ◌≤◌, length, slice_index};
ghost use Rattle.nm_cursor.specs.Place.{IsPlaceOf};
ghost use Rattle.nm_cursor.specs.Sets.{IsRising};

use crate::Cursor;
use nm_base::{Many, Steps};
use std::marker::Model;
use std::sync::ledger::Ledger;

/// A rising list, and the place of the next document in it.
#[derive(Drop)]
pub struct Rising {
    docs: Many<u32>,
    at: usize,
}

impl Model for Rising {
    ghost use Rattle.std.specs.Prelude.{◌≤◌, ℕ, List, drop, length};
    ghost use Rattle.std.specs.Coded.{coded_ℕ, coded_list};
    ghost use Rattle.nm_cursor.specs.Sets.{IsRising};

    ghost Value = { List ℕ };

    ghost coded = { coded_list coded_ℕ };

    ghost view = { λ r. drop r.at r.docs };

    ghost invariant = { λ r. IsRising r.docs × (r.at ≤ length r.docs) };
}

impl Rising {
    pub fn new(docs: Many<u32>) -> Rising
        requires { IsRising docs }
        ensures { result ≡ docs }
    {
        Rising { docs, at: 0 }
    }
}

impl Cursor for Rising {
    ghost left = { λ rising. rising };

    fn next<L: Ledger>(&mut self, steps: &mut Steps<L>) -> Option<u32> {
        steps.tick();
        match self.docs.as_slice().get(self.at) {
            None => None,
            Some(doc) => {
                let taken = *doc;
                self.at += 1;
                Some(taken)
            }
        }
    }

    fn seek<L: Ledger>(&mut self, doc: u32, steps: &mut Steps<L>) -> Option<u32> {
        self.at = place_from(self.docs.as_slice(), self.at, doc, steps);
        self.next(steps)
    }
}

/// How many documents come before the first one from `start` on that isn't below `doc`. Most leaps are short, so it looks ever further.
fn place_from<L: Ledger>(docs: &[u32], start: usize, doc: u32, steps: &mut Steps<L>) -> usize
    requires { start ≤ length docs.now }
    ensures place { IsPlaceOf docs.now start doc result }
    ensures steps { steps.old ≤ steps.new }
{
    let mut low = start;
    let mut width = 0_usize;
    'widths: while let Some(found) = docs.get(low.saturating_add(width)) {
        steps.tick();
        let probe = low + width;
        if *found >= doc {
            return place_between(docs, low, probe, doc, steps);
        }
        low = probe + 1;
        width = width.saturating_add(width).saturating_add(1);
    }
    place_between(docs, low, docs.len(), doc, steps)
}

/// The same, where it is at most `high`.
fn place_between<L: Ledger>(
    docs: &[u32],
    start: usize,
    limit: usize,
    doc: u32,
    steps: &mut Steps<L>,
) -> usize
    requires order { start ≤ limit }
    requires within { limit ≤ length docs.now }
    requires after { limit < length docs.now → doc ≤ slice_index docs.now limit }
    ensures place { IsPlaceOf docs.now start doc result }
    ensures steps { steps.old ≤ steps.new }
{
    let mut low = start;
    let mut high = limit;
    'halves: while low < high {
        steps.tick();
        let middle = low + (high - low) / 2;
        if docs[middle] < doc {
            low = middle + 1;
        } else {
            high = middle;
        }
    }
    low
}
