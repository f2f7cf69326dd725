//! Reading runs of items in order, for `part` and `in_order`.

ghost use Rattle.std.specs.Prelude.{◌≡◌, ◌++◌, length, slice_get};
ghost use Rattle.std.specs.Iterator.{at_most};
ghost use Rattle.std.specs.Map.Iter.{TakesFirst, deref};
ghost use Rattle.std.specs.Option.{option_copied};
ghost use Rattle.nm_shared.specs.Runs.{flat};

use crate::run::Run;
use std::marker::Model;

/// Reads items in order. A contract sees it as the items that are left.
#[derive(Drop)]
pub struct Items<'a, T> {
    front: &'a [T],
    rest: &'a [Run<T>],
}

impl<'a, T> Model for Items<'a, T> {
    ghost use Rattle.std.specs.Prelude.{List, ◌++◌};
    ghost use Rattle.std.specs.Coded.{coded_list};
    ghost use Rattle.nm_shared.specs.Runs.{flat};

    ghost Value = { List T };

    ghost coded = { coded_list T.code };

    ghost view = { λ i. i.front.now ++ flat i.rest.now };
}

impl<'a, T> Items<'a, T> {
    pub(crate) fn of(front: &'a [T], rest: &'a [Run<T>]) -> Items<'a, T>
        ensures { result ≡ front.now ++ flat rest.now }
    {
        Items { front, rest }
    }

    /// The first item, which stays.
    pub(crate) fn peek(&mut self) -> Option<&'a T>
        ensures first { option_copied result ≡ slice_get self.old 0 }
        ensures stays { self.new ≡ self.old }
    {
        'runs: while self.front.is_empty() {
            let (run, rest) = self.rest.split_first()?;
            self.front = run.as_slice();
            self.rest = rest;
        }
        self.front.first()
    }
}

impl<'a, T> Iterator for Items<'a, T> {
    type Item = &'a T;

    ghost next_gives = { TakesFirst deref };

    ghost remaining = { λ i. at_most (length i) };

    fn next(&mut self) -> Option<&'a T> {
        'runs: while self.front.is_empty() {
            let (run, rest) = self.rest.split_first()?;
            self.front = run.as_slice();
            self.rest = rest;
        }
        let (first, rest) = self.front.split_first()?;
        self.front = rest;
        Some(first)
    }
}
