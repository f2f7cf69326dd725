//! A cursor over the documents that have words one after the other, for `nm_lookup`.

ghost use Rattle.std.specs.Prelude.{◌≡◌, ◌≢◌, ◌≤◌, false, [], IfOk};
ghost use Rattle.nm_cursor.specs.Sets.{IsRising};
ghost use Rattle.nm_phrase.specs.Found.{numbers_with};

use crate::documents::{add_found, cursor_of};
use crate::front::{SegmentField, front_of};
use nm_base::{Field, NoMemory, Steps, WordList};
use nm_cursor::{Cursor, Rising, set_laws};
use nm_segment::{Segment, hits_are_in_order, hits_are_where_the_word_stands};
use std::alloc::Global;
use std::collections::BTreeSet;
use std::marker::Model;
use std::sync::ledger::Ledger;

/// The documents of a segment in which the words come one after the other in one list of the field.
#[derive(Drop)]
pub struct Phrase {
    docs: Rising,
}

impl Model for Phrase {
    ghost use Rattle.std.specs.Prelude.{ℕ, List};
    ghost use Rattle.std.specs.Coded.{coded_ℕ, coded_list};

    ghost Value = { List ℕ };

    ghost coded = { coded_list coded_ℕ };

    ghost view = { λ p. p.docs };
}

impl Phrase {
    pub fn new<L: Ledger>(
        alloc: Global,
        segment: &Segment,
        field: Field,
        words: &WordList,
        steps: &mut Steps<L>,
    ) -> Result<Phrase, NoMemory>
        requires some { words.now ≢ [] }
        ensures found { IfOk result (λ phrase. phrase ≡ numbers_with false field words.now segment.now) }
        ensures steps { steps.old ≤ steps.new }
    {
        set_laws();
        hits_are_where_the_word_stands();
        segment.documents_rise();
        let place = SegmentField { segment, field };
        let front = front_of(alloc, &place, words, steps)?;
        let mut docs = BTreeSet::new(alloc);
        add_found(alloc, &mut docs, &place, &front.ends, front.last, steps)?;
        Ok(Phrase {
            docs: cursor_of(alloc, &docs)?,
        })
    }
}

impl Cursor for Phrase {
    ghost left = { λ phrase. phrase };

    fn next<L: Ledger>(&mut self, steps: &mut Steps<L>) -> Option<u32> {
        self.docs.next(steps)
    }

    fn seek<L: Ledger>(&mut self, doc: u32, steps: &mut Steps<L>) -> Option<u32> {
        self.docs.seek(doc, steps)
    }
}
