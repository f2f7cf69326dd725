//! Reading pairs of two ordered maps in order, as if those of one had been inserted into the other: `long` makes one run of two by it.

ghost use Rattle.std.specs.Prelude.{◌≡◌, length};
ghost use Rattle.std.specs.Iterator.{at_most};
ghost use Rattle.std.specs.List.Sorted.{IsStrictlySortedBy};
ghost use Rattle.std.specs.Map.{keys_of};
ghost use Rattle.std.specs.Map.Iter.{TakesFirst};
ghost use Rattle.std.specs.Ordering.{nat_cmp};
ghost use Rattle.nm_shared.specs.Places.{merge};

use crate::InOrder;
use std::cmp::Ordering;
use std::marker::Model;

/// Pairs of both in order: of two with one number the late one. A contract sees it as the pairs that are left.
#[derive(Drop)]
pub struct Merge<'a> {
    late: InOrder<'a, u64, u64>,
    early: InOrder<'a, u64, u64>,
}

impl<'a> Model for Merge<'a> {
    ghost use Rattle.std.specs.Prelude.{ℕ, List};
    ghost use Rattle.std.specs.Coded.{coded_list, coded×, coded_ℕ};
    ghost use Rattle.std.specs.List.Sorted.{IsStrictlySortedBy};
    ghost use Rattle.std.specs.Map.{keys_of};
    ghost use Rattle.std.specs.Ordering.{nat_cmp};
    ghost use Rattle.nm_shared.specs.Places.{merge};

    ghost Value = { List (ℕ × ℕ) };

    ghost coded = { coded_list (coded× coded_ℕ coded_ℕ) };

    ghost view = { λ m. merge m.late m.early };

    ghost invariant = { λ m. (IsStrictlySortedBy nat_cmp (keys_of m.late)) × (IsStrictlySortedBy nat_cmp (keys_of m.early)) };
}

impl<'a> Merge<'a> {
    pub fn of(late: InOrder<'a, u64, u64>, early: InOrder<'a, u64, u64>) -> Merge<'a>
        requires late { IsStrictlySortedBy nat_cmp (keys_of late) }
        requires early { IsStrictlySortedBy nat_cmp (keys_of early) }
        ensures { result ≡ merge late.entry early.entry }
    {
        Merge { late, early }
    }

    fn take_first(&mut self) -> Option<(u64, u64)>
        ensures { TakesFirst (λ pair. pair) self.old result self.new }
    {
        let Some(late) = self.late.peek() else {
            return Some(*self.early.next()?);
        };
        let late = *late;
        let Some(early) = self.early.peek() else {
            let _ = self.late.next();
            return Some(late);
        };
        let early = *early;
        match early.0.cmp(&late.0) {
            Ordering::Less => {
                let _ = self.early.next();
                Some(early)
            }
            Ordering::Equal => {
                let _ = self.early.next();
                let _ = self.late.next();
                Some(late)
            }
            Ordering::Greater => {
                let _ = self.late.next();
                Some(late)
            }
        }
    }
}

impl<'a> Iterator for Merge<'a> {
    type Item = (u64, u64);

    ghost next_gives = { TakesFirst (λ pair. pair) };

    ghost remaining = { λ m. at_most (length m) };

    fn next(&mut self) -> Option<(u64, u64)> {
        self.take_first()
    }
}
