//! The words of one document, list after list: `rows` and `word_set` read them, and a `Segment` hands them out.

ghost use Rattle.std.specs.Prelude.{◌≡◌, ◌+◌, ◌<◌, ◌^◌, [], ◌∷◌, MatchOption, length, slice_get};
ghost use Rattle.nm_segment.specs.Docs.{AreFew, Occurrence, fields_of, lists_from, words_left};

use crate::list_words::ListWords;
use nm_base::{Field, FieldWords, Steps};
use nm_blocks::Hit;
use std::marker::Model;
use std::sync::ledger::Ledger;

/// The words of a document that are left, and the fields of all its lists.
#[derive(Drop)]
pub struct DocLists<'a> {
    doc: u32,
    lists: &'a [FieldWords],
    /// How many lists were begun.
    begun: u32,
    rest: &'a [FieldWords],
    current: Option<ListWords<'a>>,
}

impl<'a> Model for DocLists<'a> {
    ghost use Rattle.std.specs.Prelude.{List, ◌++◌};
    ghost use Rattle.nm_segment.specs.Docs.{AreLeft, Unread, fields_of, lists_from, words_left};

    ghost Value = { Unread };

    ghost view = { λ d. record { fields = fields_of d.lists.now; words = words_left d.current ++ lists_from d.doc d.begun d.rest.now } };

    ghost invariant = { λ d. AreLeft d.begun d.rest.now };
}

impl<'a> DocLists<'a> {
    /// All words of a document.
    pub(crate) fn new(doc: u32, lists: &'a [FieldWords]) -> DocLists<'a>
        requires { AreFew lists.now }
        ensures fields { result.fields ≡ fields_of lists.now }
        ensures words { result.words ≡ lists_from doc 0 lists.now }
    {
        DocLists {
            doc,
            lists,
            begun: 0,
            rest: lists,
            current: None,
        }
    }

    /// The field of a list.
    pub fn field(&self, list: u32) -> Option<Field>
        ensures { result ≡ slice_get self.now.fields list }
    {
        match self.lists.get(list as usize) {
            None => None,
            Some(list) => Some(list.field),
        }
    }

    /// Takes the first word, with its list and its place in that, in one step.
    pub fn next<L: Ledger>(&mut self, steps: &mut Steps<L>) -> Option<(u32, u32, &'a [u8])>
        ensures fields { self.new.fields ≡ self.old.fields }
        ensures word { MatchOption result ((self.old.words ≡ []) × (self.new.words ≡ [])) (λ found. (o : Occurrence) × (self.old.words ≡ o ∷ self.new.words) × (found.0 ≡ o.hit.list) × (found.1 ≡ o.hit.place) × (found.2.now ≡ o.word)) }
        ensures steps { MatchOption result (steps.new ≡ steps.old) (λ found. steps.new ≡ steps.old + 1) }
    {
        let (hit, _, word) = self.take_first()?;
        steps.tick();
        Some((hit.list, hit.place, word))
    }

    /// Takes the first word.
    pub(crate) fn take_first(&mut self) -> Option<(Hit, Field, &'a [u8])>
        ensures fields { self.new.fields ≡ self.old.fields }
        ensures words { MatchOption result ((self.old.words ≡ []) × (self.new.words ≡ [])) (λ found. self.old.words ≡ record { hit = found.0; field = found.1; word = found.2.now } ∷ self.new.words) }
    {
        if let Some(found) = first_of(&mut self.current) {
            return Some(found);
        }
        'lists: while let Some((list, rest)) = self.rest.split_first() {
            let mut words = ListWords::new(self.doc, self.begun, list);
            self.begun += 1;
            self.rest = rest;
            if let Some(found) = words.take_first() {
                self.current = Some(words);
                return Some(found);
            }
        }
        None
    }
}

fn first_of<'a>(current: &mut Option<ListWords<'a>>) -> Option<(Hit, Field, &'a [u8])>
    ensures { MatchOption result ((words_left current.old ≡ []) × (words_left current.new ≡ [])) (λ found. words_left current.old ≡ record { hit = found.0; field = found.1; word = found.2.now } ∷ words_left current.new) }
{
    match current {
        None => None,
        Some(words) => words.take_first(),
    }
}
