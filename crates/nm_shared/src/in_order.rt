//! Reading an ordered map in order, for `merge`, `pairs` and the readers of snapshots in `nm_state` and `nm_threads`.

ghost use Rattle.std.specs.Prelude.{◌≡◌, ◌++◌, length, slice_get};
ghost use Rattle.std.specs.Iterator.{at_most};
ghost use Rattle.std.specs.Map.Iter.{TakesFirst, deref};
ghost use Rattle.std.specs.Option.{option_copied};
ghost use Rattle.nm_shared.specs.Runs.{flat};

use crate::Items;
use crate::shared_part::SharedPart;
use std::marker::Model;

/// Reads pairs in the order of their keys. A contract sees it as the pairs that are left.
#[derive(Drop)]
pub struct InOrder<'a, K: Ord, V> {
    front: Items<'a, (K, V)>,
    rest: &'a [SharedPart<K, V>],
}

impl<'a, K: Ord, V> Model for InOrder<'a, K, V> {
    ghost use Rattle.std.specs.Prelude.{List, ◌++◌};
    ghost use Rattle.std.specs.Coded.{coded_list, coded×};
    ghost use Rattle.nm_shared.specs.Runs.{flat};

    ghost Value = { List (K × V) };

    ghost coded = { coded_list (coded× K.code V.code) };

    ghost view = { λ i. i.front ++ flat i.rest.now };
}

impl<'a, K: Ord, V> InOrder<'a, K, V> {
    pub(crate) fn of(front: Items<'a, (K, V)>, rest: &'a [SharedPart<K, V>]) -> InOrder<'a, K, V>
        ensures { result ≡ front.entry ++ flat rest.now }
    {
        InOrder { front, rest }
    }

    /// The first pair, which stays.
    pub(crate) fn peek(&mut self) -> Option<&'a (K, V)>
        ensures first { option_copied result ≡ slice_get self.old 0 }
        ensures stays { self.new ≡ self.old }
    {
        'parts: loop {
            if let Some(pair) = self.front.peek() {
                return Some(pair);
            }
            let (part, rest) = self.rest.split_first()?;
            self.front = part.get().iter();
            self.rest = rest;
        }
    }
}

impl<'a, K: Ord, V> Iterator for InOrder<'a, K, V> {
    type Item = &'a (K, V);

    ghost next_gives = { TakesFirst deref };

    ghost remaining = { λ i. at_most (length i) };

    fn next(&mut self) -> Option<&'a (K, V)> {
        'parts: loop {
            if let Some(pair) = self.front.next() {
                return Some(pair);
            }
            let (part, rest) = self.rest.split_first()?;
            self.front = part.get().iter();
            self.rest = rest;
        }
    }
}
