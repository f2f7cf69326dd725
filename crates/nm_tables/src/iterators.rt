//! Reading paths and files in their orders, without a list of them being made: `nm_state` hands these out.

ghost use Rattle.std.specs.Prelude.{◌≡◌, length};
ghost use Rattle.std.specs.Cmp.Lexicographic.{slice_cmp};
ghost use Rattle.std.specs.Iterator.{at_most};
ghost use Rattle.std.specs.List.{IsDistinct};
ghost use Rattle.std.specs.Map.{keys_of, values_of};
ghost use Rattle.std.specs.Map.Iter.{TakesFirst, deref, deref_pair};
ghost use Rattle.std.specs.Ordering.{eq_by_cmp, nat_cmp};
ghost use Rattle.nm_tables.specs.FileTable.{files_at_places};

use nm_base::{Facts, MailPath, MessageId, Tags};
use nm_shared::{HashedMap, InOrder, Pairs, Shared, SharedMap};
use std::marker::Model;

/// Paths in the order of their bytes. A contract sees those that are left.
#[derive(Drop)]
pub struct Paths<'a> {
    rest: InOrder<'a, MailPath, u64>,
}

impl<'a> Model for Paths<'a> {
    ghost use Rattle.std.specs.Prelude.{List, ℕ};
    ghost use Rattle.std.specs.Map.{keys_of};

    ghost Value = { List (List ℕ) };

    ghost view = { λ p. keys_of p.rest };
}

impl<'a> Paths<'a> {
    pub(crate) fn of(places: &'a SharedMap<MailPath, u64>) -> Paths<'a>
        ensures paths { result ≡ keys_of places.now }
    {
        Paths {
            rest: places.iter(),
        }
    }
}

impl<'a> Iterator for Paths<'a> {
    type Item = &'a MailPath;

    ghost next_gives = { TakesFirst deref };

    ghost remaining = { λ p. at_most (length p) };

    fn next(&mut self) -> Option<&'a MailPath> {
        let entry = self.rest.next()?;
        Some(&entry.0)
    }
}

/// Files in the order of their arrival. A contract sees those that are left.
#[derive(Drop)]
pub struct Files<'a> {
    rest: InOrder<'a, u64, (MailPath, Shared<Facts>)>,
}

impl<'a> Model for Files<'a> {
    ghost use Rattle.std.specs.Prelude.{List, ℕ};
    ghost use Rattle.std.specs.Map.{values_of};
    ghost use Rattle.nm_base.specs.declared.facts.Facts.{Facts};

    ghost Value = { List (List ℕ × Facts) };

    ghost view = { λ f. values_of f.rest };
}

impl<'a> Files<'a> {
    /// The files in this map.
    pub fn of(files: &'a SharedMap<u64, (MailPath, Shared<Facts>)>) -> Files<'a>
        ensures { result ≡ values_of files.now }
    {
        Files { rest: files.iter() }
    }
}

impl<'a> Iterator for Files<'a> {
    type Item = (&'a MailPath, &'a Facts);

    ghost next_gives = { TakesFirst deref_pair };

    ghost remaining = { λ f. at_most (length f) };

    fn next(&mut self) -> Option<(&'a MailPath, &'a Facts)> {
        let entry = self.rest.next()?;
        let file = &entry.1;
        Some((&file.0, file.1.get()))
    }
}

/// The files of one message, in the order of their arrival. A contract sees those that are left.
#[derive(Drop)]
pub struct MessageFiles<'a> {
    places: &'a [u64],
    files: &'a SharedMap<u64, (MailPath, Shared<Facts>)>,
}

impl<'a> Model for MessageFiles<'a> {
    ghost use Rattle.std.specs.Prelude.{List, ℕ};
    ghost use Rattle.nm_base.specs.declared.facts.Facts.{Facts};
    ghost use Rattle.nm_tables.specs.FileTable.{files_at_places};

    ghost Value = { List (List ℕ × Facts) };

    ghost view = { λ m. files_at_places m.files.now m.places.now };
}

impl<'a> MessageFiles<'a> {
    pub(crate) fn of(
        places: &'a [u64],
        files: &'a SharedMap<u64, (MailPath, Shared<Facts>)>,
    ) -> MessageFiles<'a>
        ensures { result ≡ files_at_places files.now places.now }
    {
        MessageFiles { places, files }
    }

    /// The same files once more.
    pub fn again(&self) -> MessageFiles<'a>
        ensures { result ≡ self.now }
    {
        MessageFiles {
            places: self.places,
            files: self.files,
        }
    }
}

impl<'a> Iterator for MessageFiles<'a> {
    type Item = (&'a MailPath, &'a Facts);

    ghost next_gives = { TakesFirst deref_pair };

    ghost remaining = { λ m. at_most (length m) };

    fn next(&mut self) -> Option<(&'a MailPath, &'a Facts)> {
        'places: loop {
            let (place, rest) = self.places.split_first()?;
            self.places = rest;
            if let Some(file) = self.files.get_numbered(place) {
                return Some((&file.0, file.1.get()));
            }
        }
    }
}

/// Messages in no particular order, each with its tags. A contract sees those that are left.
#[derive(Drop)]
pub struct Tagged<'a> {
    rest: Pairs<'a, MessageId, Shared<Tags>>,
}

impl<'a> Model for Tagged<'a> {
    ghost use Rattle.std.specs.Prelude.{List, ℕ};

    ghost Value = { List (List ℕ × List (List ℕ)) };

    ghost view = { λ t. t.rest };
}

impl<'a> Tagged<'a> {
    pub(crate) fn of(tags: &'a HashedMap<MessageId, Shared<Tags>>) -> Tagged<'a>
        ensures tags { result ≡ tags.now }
        ensures once { IsDistinct (eq_by_cmp (slice_cmp nat_cmp)) (keys_of tags.now) }
    {
        Tagged { rest: tags.iter() }
    }
}

impl<'a> Iterator for Tagged<'a> {
    type Item = (&'a MessageId, &'a Tags);

    ghost next_gives = { TakesFirst deref_pair };

    ghost remaining = { λ t. at_most (length t) };

    fn next(&mut self) -> Option<(&'a MessageId, &'a Tags)> {
        let entry = self.rest.next()?;
        Some((&entry.0, entry.1.get()))
    }
}
