//! A cursor over the documents that have words one after the other, the last by its front, for `nm_lookup`.

ghost use Rattle.std.specs.Prelude.{◌≡◌, ◌≢◌, ◌≤◌, true, [], IfOk, OnOk};
ghost use Rattle.std.specs.List.{flat_map};
ghost use Rattle.nm_cursor.specs.Sets.{union};
ghost use Rattle.nm_segment.specs.Docs.{AreDocs, words};
ghost use Rattle.nm_segment.specs.Starts.{starting};
ghost use Rattle.nm_phrase.specs.Ends.{are_rising};
ghost use Rattle.nm_phrase.specs.Found.{numbers_of, numbers_with};

use crate::documents::{add_found, cursor_of};
use crate::front::{SegmentField, front_of};
use nm_base::{Field, Many, NoMemory, Steps, WordList};
use nm_blocks::Hit;
use nm_cursor::{Cursor, Rising, set_laws};
use nm_segment::{Segment, hits_are_where_the_word_stands, words_are_those_that_stand};
use std::alloc::Global;
use std::collections::BTreeSet;
use std::marker::Model;
use std::sync::ledger::Ledger;

/// The documents of a segment in which the words come one after the other in one list of the field, where the last one that
/// is asked is the front of a word.
#[derive(Drop)]
pub struct Start {
    docs: Rising,
}

impl Model for Start {
    ghost use Rattle.std.specs.Prelude.{ℕ, List};
    ghost use Rattle.std.specs.Coded.{coded_ℕ, coded_list};

    ghost Value = { List ℕ };

    ghost coded = { coded_list coded_ℕ };

    ghost view = { λ s. s.docs };
}

impl Start {
    pub fn new<L: Ledger>(
        alloc: Global,
        segment: &Segment,
        field: Field,
        words: &WordList,
        steps: &mut Steps<L>,
    ) -> Result<Start, NoMemory>
        requires some { words.now ≢ [] }
        ensures found { IfOk result (λ start. start ≡ numbers_with true field words.now segment.now) }
        ensures steps { steps.old ≤ steps.new }
    {
        set_laws();
        hits_are_where_the_word_stands();
        words_are_those_that_stand();
        segment.documents_rise();
        let place = SegmentField { segment, field };
        let front = front_of(alloc, &place, words, steps)?;
        let mut docs = BTreeSet::new(alloc);
        add_started(alloc, &mut docs, &place, &front.ends, front.last, steps)?;
        Ok(Start {
            docs: cursor_of(alloc, &docs)?,
        })
    }
}

impl Cursor for Start {
    ghost left = { λ start. start };

    fn next<L: Ledger>(&mut self, steps: &mut Steps<L>) -> Option<u32> {
        self.docs.next(steps)
    }

    fn seek<L: Ledger>(&mut self, doc: u32, steps: &mut Steps<L>) -> Option<u32> {
        self.docs.seek(doc, steps)
    }
}

/// Adds the documents in which a word with this start is right after the words before, where there are any.
fn add_started<L: Ledger>(
    alloc: Global,
    docs: &mut BTreeSet<u32>,
    place: &SegmentField<'_>,
    before: &Option<Many<Hit>>,
    start: &[u8],
    steps: &mut Steps<L>,
) -> Result<(), NoMemory>
    requires docs { AreDocs place.now.segment.now }
    requires before { are_rising before.now ≡ true }
    ensures docs { OnOk result (docs.new.keys ≡ union docs.old.keys (flat_map (numbers_of place.now.segment.now place.now.field before.now) (starting start.now (words place.now.segment.now)))) }
    ensures steps { steps.old ≤ steps.new }
{
    let mut at = 0_usize;
    'words: while let Some(word) = place.segment.with_start(start, at, steps) {
        add_found(alloc, docs, place, before, word, steps)?;
        // More words than a place can tell would take more memory than there is.
        let Some(next) = at.checked_add(1) else {
            return Err(NoMemory);
        };
        at = next;
    }
    Ok(())
}
