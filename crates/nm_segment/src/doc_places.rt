//! Documents by number, found by halves: a `Segment` finds a document's lists here.

ghost use Rattle.std.specs.Prelude.{◌≡◌, ◌<◌, [], MatchOption, length, slice_index_or};
ghost use Rattle.std.specs.List.Sorted.{IsStrictlySortedBy};
ghost use Rattle.std.specs.Ordering.{nat_cmp};
ghost use Rattle.nm_segment.specs.Costs.{SearchSteps};
ghost use Rattle.nm_segment.specs.Docs.{AreDocs, lists_of, numbers};
ghost use Rattle.nm_segment.specs.declared.doc_words.DocWords.{DocWords};

use crate::doc_words::DocWords;
use nm_base::{FieldWords, Steps};
use std::cmp::Ordering;
use std::sync::ledger::Ledger;

/// The lists of a document; none where there is no such document.
pub fn lists_of_doc<'a, L: Ledger>(
    docs: &'a [DocWords],
    doc: u32,
    steps: &mut Steps<L>,
) -> &'a [FieldWords]
    requires { AreDocs docs.now }
    ensures lists { result.now ≡ lists_of docs.now doc }
    ensures steps { SearchSteps (length docs.now) steps.old steps.new }
{
    match place_of_doc(docs, doc, steps) {
        None => &[],
        Some(at) => docs[at].lists.get().as_slice(),
    }
}

fn place_of_doc<L: Ledger>(docs: &[DocWords], doc: u32, steps: &mut Steps<L>) -> Option<usize>
    requires { IsStrictlySortedBy nat_cmp (numbers docs.now) }
    ensures place { MatchOption result (lists_of docs.now doc ≡ []) (λ at. (at < length docs.now) × ((d : DocWords) → lists_of docs.now doc ≡ (slice_index_or docs.now at d).lists)) }
    ensures steps { SearchSteps (length docs.now) steps.old steps.new }
{
    let mut low = 0;
    let mut high = docs.len();
    'probes: while low < high {
        let middle = low + (high - low) / 2;
        steps.tick();
        match doc.cmp(&docs[middle].doc) {
            Ordering::Less => high = middle,
            Ordering::Equal => return Some(middle),
            Ordering::Greater => low = middle + 1,
        }
    }
    None
}
