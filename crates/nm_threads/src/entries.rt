//! The ids that have numbers, read in the order of these, by `live_ids` of `nm_state`.

ghost use Rattle.std.specs.Prelude.{◌≡◌, length, map};
ghost use Rattle.std.specs.Iterator.{at_most};
ghost use Rattle.std.specs.Map.Iter.{TakesFirst};
ghost use Rattle.nm_threads.specs.Entries.{id_and_number};

use nm_base::MessageId;
use nm_shared::{InOrder, SharedMap};
use std::marker::Model;

/// Ids with their numbers, by rising numbers. A contract sees those that are left.
#[derive(Drop)]
pub struct Entries<'a> {
    rest: InOrder<'a, u64, MessageId>,
}

impl<'a> Model for Entries<'a> {
    ghost use Rattle.std.specs.Prelude.{List, ℕ, map};

    ghost Value = { List (List ℕ × ℕ) };

    ghost view = { λ e. map (λ entry. (entry.1, entry.0)) e.rest };
}

impl<'a> Entries<'a> {
    pub(crate) fn of(ids: &'a SharedMap<u64, MessageId>) -> Entries<'a>
        ensures { result ≡ map (λ entry. (entry.1, entry.0)) ids.now }
    {
        Entries { rest: ids.iter() }
    }
}

impl<'a> Iterator for Entries<'a> {
    type Item = (&'a MessageId, u64);

    ghost next_gives = { TakesFirst id_and_number };

    ghost remaining = { λ e. at_most (length e) };

    fn next(&mut self) -> Option<(&'a MessageId, u64)> {
        let entry = self.rest.next()?;
        Some((&entry.1, entry.0))
    }
}
