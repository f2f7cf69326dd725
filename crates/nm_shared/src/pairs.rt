//! Reading a map by hashes in no particular order: `nm_tables` goes through the tags of all messages so.

ghost use Rattle.std.specs.Prelude.{◌≡◌, ◌++◌, length};
ghost use Rattle.std.specs.Iterator.{at_most};
ghost use Rattle.std.specs.Map.{values_of};
ghost use Rattle.std.specs.Map.Iter.{TakesFirst, deref};

use crate::{InOrder, SharedMap};
use std::marker::Model;

/// Reads pairs: those in slots, then those that are crowded. A contract sees it as the pairs that are left.
#[derive(Drop)]
pub struct Pairs<'a, K: Ord, V> {
    slots: InOrder<'a, u64, (K, V)>,
    crowded: InOrder<'a, K, V>,
}

impl<'a, K: Ord, V> Model for Pairs<'a, K, V> {
    ghost use Rattle.std.specs.Prelude.{List, ◌++◌};
    ghost use Rattle.std.specs.Coded.{coded_list, coded×};
    ghost use Rattle.std.specs.Map.{values_of};

    ghost Value = { List (K × V) };

    ghost coded = { coded_list (coded× K.code V.code) };

    ghost view = { λ p. values_of p.slots ++ p.crowded };
}

impl<'a, K: Ord, V> Pairs<'a, K, V> {
    pub(crate) fn of(
        slots: &'a SharedMap<u64, (K, V)>,
        crowded: &'a SharedMap<K, V>,
    ) -> Pairs<'a, K, V>
        ensures { result ≡ values_of slots.now ++ crowded.now }
    {
        Pairs {
            slots: slots.iter(),
            crowded: crowded.iter(),
        }
    }
}

impl<'a, K: Ord, V> Iterator for Pairs<'a, K, V> {
    type Item = &'a (K, V);

    ghost next_gives = { TakesFirst deref };

    ghost remaining = { λ p. at_most (length p) };

    fn next(&mut self) -> Option<&'a (K, V)> {
        if let Some(entry) = self.slots.next() {
            return Some(&entry.1);
        }
        self.crowded.next()
    }
}
