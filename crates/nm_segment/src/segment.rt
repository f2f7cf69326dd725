//! The segment: documents, and where each of their words is. Queries look words up here, and `part` merges it.

ghost use Rattle.std.specs.Prelude.{◌≡◌, ◌<◌, ◌≤◌, Some, [], length, slice_get, slice_index_or, IfOk, MatchOption};
ghost use Rattle.nm_segment.specs.Costs.{SearchSteps};
ghost use Rattle.nm_segment.specs.Docs.{AreDocs, fields_of, hits_of, lists_from, lists_of, numbers, words};
ghost use Rattle.nm_blocks.specs.Blocks.{IsRun};
ghost use Rattle.nm_segment.specs.Runs.{row_at};
ghost use Rattle.nm_segment.specs.Segment.{IsIndexed};
ghost use Rattle.nm_segment.specs.Starts.{FoundSteps, starting};

use crate::dictionary::place_of;
use crate::doc_lists::DocLists;
use crate::doc_places::lists_of_doc;
use crate::doc_words::DocWords;
use crate::gather::index_of_docs;
use crate::pieces::Pieces;
use crate::postings::Postings;
use crate::starts::word_with_start;
use nm_base::{Copies, Field, Many, NoMemory, Steps};
use std::alloc::Global;
use std::marker::Model;
use std::sync::ledger::Ledger;

/// Documents with their words, seen as the list of them.
#[derive(Drop)]
pub struct Segment {
    docs: Many<DocWords>,
    /// The distinct words in order.
    words: Pieces,
    /// Five for each word, one a field: the blocks of its hits.
    runs: Pieces,
}

impl Model for Segment {
    ghost use Rattle.std.specs.Prelude.{List};
    ghost use Rattle.nm_segment.specs.declared.doc_words.DocWords.{DocWords};
    ghost use Rattle.nm_segment.specs.Segment.{IsIndexed};

    ghost Value = { List DocWords };

    ghost view = { λ s. s.docs };

    ghost invariant = { λ s. IsIndexed s.docs s.words s.runs };
}

/// The segment of documents whose numbers rise.
pub fn build(alloc: Global, docs: &Many<DocWords>) -> Result<Segment, NoMemory>
    requires { AreDocs docs.now }
    ensures { IfOk result (λ segment. segment ≡ docs.now) }
{
    let (words, runs) = index_of_docs(alloc, docs.as_slice())?;
    let docs = docs.copy()?;
    Ok(Segment::of_index(docs, words, runs))
}

impl Segment {
    /// A segment of documents, their words in order, and the run of each word in each field.
    pub(crate) fn of_index(docs: Many<DocWords>, words: Pieces, runs: Pieces) -> Segment
        requires { IsIndexed docs words runs }
        ensures { result ≡ docs }
    {
        Segment { docs, words, runs }
    }

    pub(crate) fn docs(&self) -> &[DocWords]
        ensures docs { result.now ≡ self.now }
        ensures given { AreDocs self.now }
    {
        self.docs.as_slice()
    }

    /// The distinct words in byte order.
    pub(crate) fn words(&self) -> &Pieces
        ensures { result.now ≡ words self.now }
    {
        &self.words
    }

    /// The run of the word at a place in a field.
    pub(crate) fn run(&self, at: usize, field: Field) -> &[u8]
        requires { at < length (words self.now) }
        ensures run { IsRun result.now (hits_of self.now (slice_index_or (words self.now) at []) field) }
        ensures given { AreDocs self.now }
    {
        run_of(&self.runs, at, field)
    }

    /// What is known of the documents of any segment. It runs no code.
    pub fn documents_rise(&self)
        ensures { AreDocs self.now }
    {
        let _ = &self.docs;
    }

    /// How many documents there are.
    pub fn len(&self) -> usize
        ensures { result ≡ length self.now }
    {
        self.docs.len()
    }

    /// The number of the document at a place.
    pub fn doc_at(&self, at: usize) -> Option<u32>
        ensures { result ≡ slice_get (numbers self.now) at }
    {
        match self.docs().get(at) {
            None => None,
            Some(found) => Some(found.doc),
        }
    }

    /// The hits of a word in a field. A step is a probe of the words.
    pub fn postings<L: Ledger>(
        &self,
        word: &[u8],
        field: Field,
        steps: &mut Steps<L>,
    ) -> Postings<'_>
        ensures hits { result ≡ hits_of self.now word.now field }
        ensures steps { SearchSteps (length (words self.now)) steps.old steps.new }
    {
        match place_of(&self.words, word, steps) {
            None => Postings::new(&[]),
            Some(at) => Postings::new(run_of(&self.runs, at, field)),
        }
    }

    /// The word at a place, from 0, among the distinct words that begin with `start`, in byte order. A step is a probe of
    /// the words, and one more is for the word.
    pub fn with_start<L: Ledger>(
        &self,
        start: &[u8],
        at: usize,
        steps: &mut Steps<L>,
    ) -> Option<&[u8]>
        ensures word { MatchOption result (length (starting start.now (words self.now)) ≤ at) (λ word. slice_get (starting start.now (words self.now)) at ≡ Some word.now) }
        ensures steps { MatchOption result (SearchSteps (length (words self.now)) steps.old steps.new) (λ word. FoundSteps (length (words self.now)) steps.old steps.new) }
    {
        word_with_start(&self.words, start, at, steps)
    }

    /// The words of a document, list after list; none where there is no such document. A step is a probe of the documents.
    #[tactic(auto, using(crate::proofs::DocLemmas::few_of))]
    pub fn words_of<L: Ledger>(&self, doc: u32, steps: &mut Steps<L>) -> DocLists<'_>
        ensures fields { result.fields ≡ fields_of (lists_of self.now doc) }
        ensures words { result.words ≡ lists_from doc 0 (lists_of self.now doc) }
        ensures steps { SearchSteps (length self.now) steps.old steps.new }
    {
        let lists = lists_of_doc(self.docs.as_slice(), doc, steps);
        DocLists::new(doc, lists)
    }
}

/// The run of the word at a place in a field.
fn run_of(runs: &Pieces, at: usize, field: Field) -> &[u8]
    requires { row_at at field < length runs.now }
    ensures { result.now ≡ slice_index_or runs.now (row_at at field) [] }
{
    let len = runs.len();
    prove!(at < len);
    runs.get(at * 5 + usize::from(field.number()))
}
