//! The words of documents, document after document: `gather` goes over them once.

ghost use Rattle.std.specs.Prelude.{◌≡◌, [], ◌∷◌, MatchOption};
ghost use Rattle.std.specs.List.{AllByRecursion};
ghost use Rattle.nm_segment.specs.Docs.{AreFew, current_words, occurrences};

use crate::doc_lists::DocLists;
use crate::doc_words::DocWords;
use nm_base::Field;
use nm_blocks::Hit;
use std::marker::Model;

/// The words that are left, each seen as it is.
#[derive(Drop)]
pub struct AllWords<'a> {
    current: Option<DocLists<'a>>,
    rest: &'a [DocWords],
}

impl<'a> Model for AllWords<'a> {
    ghost use Rattle.std.specs.Prelude.{List, ◌++◌};
    ghost use Rattle.std.specs.List.{AllByRecursion};
    ghost use Rattle.nm_segment.specs.Docs.{AreFew, Occurrence, current_words, occurrences};

    ghost Value = { List Occurrence };

    ghost view = { λ w. current_words w.current ++ occurrences w.rest.now };

    ghost invariant = { λ w. AllByRecursion (λ d. AreFew d.lists) w.rest.now };
}

impl<'a> AllWords<'a> {
    pub fn new(docs: &'a [DocWords]) -> AllWords<'a>
        requires { AllByRecursion (λ d. AreFew d.lists) docs.now }
        ensures { result ≡ occurrences docs.now }
    {
        AllWords {
            current: None,
            rest: docs,
        }
    }

    /// Takes the first word.
    pub fn take_first(&mut self) -> Option<(Hit, Field, &'a [u8])>
        ensures { MatchOption result ((self.old ≡ []) × (self.new ≡ [])) (λ found. self.old ≡ record { hit = found.0; field = found.1; word = found.2.now } ∷ self.new) }
    {
        if let Some(found) = first_of(&mut self.current) {
            return Some(found);
        }
        'docs: while let Some((doc, rest)) = self.rest.split_first() {
            let mut words = DocLists::new(doc.doc, doc.lists.get().as_slice());
            self.rest = rest;
            if let Some(found) = words.take_first() {
                self.current = Some(words);
                return Some(found);
            }
        }
        None
    }
}

fn first_of<'a>(current: &mut Option<DocLists<'a>>) -> Option<(Hit, Field, &'a [u8])>
    ensures { MatchOption result ((current_words current.old ≡ []) × (current_words current.new ≡ [])) (λ found. current_words current.old ≡ record { hit = found.0; field = found.1; word = found.2.now } ∷ current_words current.new) }
{
    match current {
        None => None,
        Some(words) => words.take_first(),
    }
}
