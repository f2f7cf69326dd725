//! The words of one list with their places: `doc_lists` reads a document list by list.

ghost use Rattle.std.specs.Prelude.{◌≡◌, ◌+◌, ◌<◌, ◌^◌, [], ◌∷◌, MatchOption, length};
ghost use Rattle.nm_segment.specs.Docs.{words_from};

use nm_base::{Field, FieldWords, Words};
use nm_blocks::Hit;
use std::marker::Model;

/// The words of a list from a place on, each seen as it is.
#[derive(Drop)]
pub struct ListWords<'a> {
    hit: Hit,
    field: Field,
    words: Words<'a>,
}

impl<'a> Model for ListWords<'a> {
    ghost use Rattle.std.specs.Prelude.{List, ◌+◌, ◌<◌, ◌^◌, length};
    ghost use Rattle.nm_segment.specs.Docs.{Occurrence, words_from};

    ghost Value = { List Occurrence };

    ghost view = { λ w. words_from w.hit w.field w.words };

    ghost invariant = { λ w. w.hit.place + length w.words < 2 ^ 32 };
}

impl<'a> ListWords<'a> {
    pub fn new(doc: u32, list: u32, words: &'a FieldWords) -> ListWords<'a>
        requires { length words.now.words < 2 ^ 32 }
        ensures { result ≡ words_from (record { doc = doc; list = list; place = 0 }) words.now.field words.now.words }
    {
        ListWords {
            hit: Hit {
                doc,
                list,
                place: 0,
            },
            field: words.field,
            words: words.words.words(),
        }
    }

    /// Takes the first word.
    pub fn take_first(&mut self) -> Option<(Hit, Field, &'a [u8])>
        ensures { MatchOption result ((self.old ≡ []) × (self.new ≡ [])) (λ found. self.old ≡ record { hit = found.0; field = found.1; word = found.2.now } ∷ self.new) }
    {
        let word = self.words.take_first()?;
        let hit = self.hit;
        self.hit.place += 1;
        Some((hit, self.field, word))
    }
}
