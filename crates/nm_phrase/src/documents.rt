//! The documents of the hits that are found, each once: `phrase` and `start` make a cursor of them.

ghost use Rattle.std.specs.Prelude.{◌≡◌, ◌≤◌, Some, true, map, IfOk, OnOk};
ghost use Rattle.std.specs.Bool.{OnTrue};
ghost use Rattle.nm_cursor.specs.Sets.{IsRising, union};
ghost use Rattle.nm_segment.specs.Docs.{AreDocs};
ghost use Rattle.nm_phrase.specs.Ends.{are_rising};
ghost use Rattle.nm_phrase.specs.Found.{numbers_of};

use crate::ends::narrowed;
use crate::front::SegmentField;
use nm_base::{Many, NoMemory, Steps};
use nm_blocks::Hit;
use nm_cursor::Rising;
use nm_segment::hits_are_in_order;
use std::alloc::Global;
use std::collections::BTreeSet;
use std::sync::ledger::Ledger;

/// Adds the documents in which a word is right after the words before it, where there are any.
pub(crate) fn add_found<L: Ledger>(
    alloc: Global,
    docs: &mut BTreeSet<u32>,
    place: &SegmentField<'_>,
    before: &Option<Many<Hit>>,
    word: &[u8],
    steps: &mut Steps<L>,
) -> Result<(), NoMemory>
    requires docs { AreDocs place.now.segment.now }
    requires before { are_rising before.now ≡ true }
    ensures docs { OnOk result (docs.new.keys ≡ union docs.old.keys (numbers_of place.now.segment.now place.now.field before.now word.now)) }
    ensures steps { steps.old ≤ steps.new }
{
    hits_are_in_order();
    let postings = place.segment.postings(word, place.field, steps);
    let hits = narrowed(alloc, before, postings, steps)?;
    add_documents(docs, hits.as_slice())
}

// Most hits are in the document of the hit before, which is there already.
fn add_documents(docs: &mut BTreeSet<u32>, hits: &[Hit]) -> Result<(), NoMemory>
    ensures { OnOk result (docs.new.keys ≡ union docs.old.keys (map (λ hit. hit.doc) hits.now)) }
{
    let mut last = None;
    'hits: for hit in hits {
        if is_last(last, hit.doc) {
            continue 'hits;
        }
        docs.insert(hit.doc)?;
        last = Some(hit.doc);
    }
    Ok(())
}

fn is_last(last: Option<u32>, doc: u32) -> bool
    ensures { OnTrue result (last ≡ Some doc) }
{
    match last {
        None => false,
        Some(last) => last == doc,
    }
}

/// A cursor over the documents.
pub(crate) fn cursor_of(alloc: Global, docs: &BTreeSet<u32>) -> Result<Rising, NoMemory>
    ensures list { IfOk result (λ cursor. cursor ≡ docs.now.keys) }
    ensures rising { IfOk result IsRising }
{
    let list = rising_list(alloc, docs)?;
    Ok(Rising::new(list))
}

fn rising_list(alloc: Global, docs: &BTreeSet<u32>) -> Result<Many<u32>, NoMemory>
    ensures list { IfOk result (λ list. list ≡ docs.now.keys) }
    ensures rising { IfOk result IsRising }
{
    let mut list = Many::new(alloc);
    'docs: for doc in docs {
        list.push(*doc)?;
    }
    Ok(list)
}
