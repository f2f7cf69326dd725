//! The words before the last one that is asked, found: `phrase` and `start` go on with the last one.

ghost use Rattle.std.specs.Prelude.{◌≢◌, ◌≤◌, [], IfOk};
ghost use Rattle.nm_segment.specs.Docs.{AreDocs};
ghost use Rattle.nm_phrase.specs.Ends.{IsFront};

use crate::ends::narrowed;
use nm_base::{Field, Many, NoMemory, Steps, WordList};
use nm_blocks::Hit;
use nm_segment::{Segment, hits_are_in_order, hits_are_where_the_word_stands};
use std::alloc::Global;
use std::sync::ledger::Ledger;

/// A field of a segment, whose words are asked for.
#[derive(Drop)]
pub(crate) struct SegmentField<'a> {
    pub segment: &'a Segment,
    pub field: Field,
}

/// Where the words before the last one end, if there are any, and the last one.
#[derive(Drop)]
pub(crate) struct Front<'a> {
    pub ends: Option<Many<Hit>>,
    pub last: &'a [u8],
}

/// Finds the words before the last one.
pub(crate) fn front_of<'a, L: Ledger>(
    alloc: Global,
    place: &SegmentField<'_>,
    words: &'a WordList,
    steps: &mut Steps<L>,
) -> Result<Front<'a>, NoMemory>
    requires docs { AreDocs place.now.segment.now }
    requires some { words.now ≢ [] }
    ensures front { IfOk result (λ front. IsFront place.now.segment.now place.now.field words.now front.ends front.last.now) }
    ensures steps { steps.old ≤ steps.new }
{
    hits_are_where_the_word_stands();
    hits_are_in_order();
    let mut rest = words.words();
    let Some(first) = rest.take_first() else {
        unreachable!()
    };
    let mut ends = None;
    let mut last = first;
    'words: while let Some(next) = rest.take_first() {
        let hits = place.segment.postings(last, place.field, steps);
        ends = Some(narrowed(alloc, &ends, hits, steps)?);
        last = next;
    }
    Ok(Front { ends, last })
}
