//! The documents that have one word, by one walk over its hits: `fields` asks for them.

ghost use Rattle.std.specs.Prelude.{◌≡◌, ◌≢◌, ◌+◌, ◌≤◌, ℕ, List, [], ◌∷◌, MatchOption, None, false, length, IfOk};
ghost use Rattle.nm_cursor.specs.Sets.{IsRising};
ghost use Rattle.nm_lookup.specs.Lookup.{WalkSteps, distinct, is_last};
ghost use Rattle.nm_phrase.specs.Found.{numbers_with};

use nm_base::{Field, Many, NoMemory, Steps, WordList};
use nm_cursor::set_laws;
use nm_phrase::a_word_is_found_where_it_hits;
use nm_segment::{Postings, Segment, hits_are_in_order};
use std::alloc::Global;
use std::sync::ledger::Ledger;

/// The word, where there is just one.
pub(crate) fn only_word(words: &WordList) -> Option<&[u8]>
    ensures { MatchOption result ((word : List ℕ) → words.now ≢ word ∷ []) (λ word. words.now ≡ word.now ∷ []) }
{
    if words.len() != 1 {
        return None;
    }
    let mut words = words.words();
    words.take_first()
}

/// The documents with the word in a list of the field, in order. A step is a probe of the words, or a hit.
pub(crate) fn with_word<L: Ledger>(
    alloc: Global,
    segment: &Segment,
    field: Field,
    word: &[u8],
    steps: &mut Steps<L>,
) -> Result<Many<u32>, NoMemory>
    ensures found { IfOk result (λ docs. docs ≡ numbers_with false field (word.now ∷ []) segment.now) }
    ensures rising { IfOk result IsRising }
    ensures steps { IfOk result (λ _. WalkSteps segment.now word.now field steps.old steps.new) }
    ensures more { steps.old ≤ steps.new }
{
    set_laws();
    a_word_is_found_where_it_hits();
    hits_are_in_order();
    segment.documents_rise();
    let mut hits = segment.postings(word, field, steps);
    distinct(alloc, &mut hits, steps)
}

/// The documents of hits, each once where its hits are side by side.
fn distinct<L: Ledger>(
    alloc: Global,
    hits: &mut Postings<'_>,
    steps: &mut Steps<L>,
) -> Result<Many<u32>, NoMemory>
    ensures docs { IfOk result (λ docs. docs ≡ distinct None hits.old) }
    ensures steps { IfOk result (λ _. steps.new ≡ steps.old + length hits.old) }
    ensures more { steps.old ≤ steps.new }
{
    let mut docs = Many::new(alloc);
    let mut last = None;
    'hits: while let Some(hit) = hits.next(steps) {
        if is_last(last, hit.doc) {
            continue 'hits;
        }
        docs.push(hit.doc)?;
        last = Some(hit.doc);
    }
    Ok(docs)
}

fn is_last(last: Option<u32>, doc: u32) -> bool
    ensures { result ≡ is_last last doc }
{
    match last {
        None => false,
        Some(last) => last == doc,
    }
}
