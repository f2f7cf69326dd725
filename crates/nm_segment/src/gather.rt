//! Words and their hits as they are met, in one pass over documents: a `segment` is built of what was gathered.

ghost use Rattle.std.specs.Prelude.{◌≡◌, ◌+◌, ◌*◌, ◌<◌, [], ◌∷◌, ◌++◌, ℕ, List, length, replicate, slice_get, true, IfOk, OnOk, None, Some};
ghost use Rattle.std.specs.HashMap.{get};
ghost use Rattle.nm_base.specs.Order.{has_text, same_text, sorted};
ghost use Rattle.nm_blocks.specs.Hits.{is_rising};
ghost use Rattle.nm_segment.specs.Docs.{AreDocs, Occurrence, hits_in, hits_of, occurrences, texts, words as words_of};
ghost use Rattle.nm_segment.specs.Gather.{HasGathered, words_by_number};
ghost use Rattle.nm_segment.specs.Runs.{AddsRuns, AreRuns, AreRunsOf};

use crate::all_words::AllWords;
use crate::doc_words::DocWords;
use crate::key::Key;
use crate::pieces::Pieces;
use nm_base::{Field, Many, NoMemory};
use nm_blocks::{Hit, RunWriter};
use std::alloc::Global;
use std::collections::{BTreeSet, HashMap};

/// The distinct words so far, numbered from 0 as they were first met, and their hits.
#[derive(Drop)]
pub struct Gathered<'a> {
    alloc: Global,
    numbers: HashMap<Key<'a>, usize>,
    /// By their numbers.
    words: Vec<&'a [u8]>,
    /// In byte order.
    order: BTreeSet<&'a [u8]>,
    /// Five for each word, one a field.
    rows: Vec<RunWriter>,
}

/// The distinct words of documents in byte order, and the run of each in each field.
pub fn index_of_docs(alloc: Global, docs: &[DocWords]) -> Result<(Pieces, Pieces), NoMemory>
    requires { AreDocs docs.now }
    ensures words { IfOk result (λ index. index.0 ≡ words_of docs.now) }
    ensures runs { IfOk result (λ index. AreRuns index.1 index.0 (hits_of docs.now)) }
{
    let mut gathered = Gathered::new(alloc);
    let mut words = AllWords::new(docs);
    'words: while let Some((hit, field, word)) = words.take_first() {
        gathered.add(hit, field, word)?;
    }
    gathered.index()
}

impl<'a> Gathered<'a> {
    fn new(alloc: Global) -> Gathered<'a>
        ensures { HasGathered result [] [] }
    {
        Gathered {
            alloc,
            numbers: HashMap::new(alloc),
            words: Vec::new(alloc),
            order: BTreeSet::new(alloc),
            rows: Vec::new(alloc),
        }
    }

    /// Adds a word where it is.
    fn add(&mut self, hit: Hit, field: Field, word: &'a [u8]) -> Result<(), NoMemory>
        requires { (found : List Occurrence) × HasGathered self.old (texts found) found × (is_rising (hits_in found word.now field ++ hit ∷ []) ≡ true) }
        ensures { OnOk result ((found : List Occurrence) → HasGathered self.old (texts found) found → HasGathered self.new (texts (found ++ record { hit = hit; field = field; word = word.now } ∷ [])) (found ++ record { hit = hit; field = field; word = word.now } ∷ [])) }
    {
        let number = self.number_of(word)?;
        let row = &mut self.rows[number * 5 + usize::from(field.number())];
        row.push(hit)
    }

    /// The number of a word, which is a new one where the word is met for the first time.
    fn number_of(&mut self, word: &'a [u8]) -> Result<usize, NoMemory>
        ensures number { IfOk result (λ number. (found : List Occurrence) → HasGathered self.old (texts found) found → slice_get (words_by_number self.new) number ≡ Some word.now) }
        ensures words { OnOk result ((found : List Occurrence) → HasGathered self.old (texts found) found → HasGathered self.new (texts found ++ word.now ∷ []) found) }
    {
        if let Some(number) = self.numbers.get(&Key { word }) {
            return Ok(*number);
        }
        self.add_word(word)
    }

    fn add_word(&mut self, word: &'a [u8]) -> Result<usize, NoMemory>
        requires { get same_text self.old.numbers word.now ≡ None }
        ensures number { IfOk result (λ number. slice_get (words_by_number self.new) number ≡ Some word.now) }
        ensures words { OnOk result ((found : List Occurrence) → HasGathered self.old (texts found) found → HasGathered self.new (texts found ++ word.now ∷ []) found) }
    {
        let number = self.words.len();
        self.numbers.insert(Key { word }, number)?;
        self.order.insert(word)?;
        self.words.push(word)?;
        add_empty_rows(self.alloc, &mut self.rows)?;
        Ok(number)
    }

    /// The words in byte order, and the run of each in each field.
    fn index(&self) -> Result<(Pieces, Pieces), NoMemory>
        requires { (found : List Occurrence) × HasGathered self.now (texts found) found }
        ensures words { IfOk result (λ index. (found : List Occurrence) → HasGathered self.now (texts found) found → index.0 ≡ sorted (texts found)) }
        ensures runs { IfOk result (λ index. (found : List Occurrence) → HasGathered self.now (texts found) found → AreRuns index.1 index.0 (hits_in found)) }
    {
        let mut words = Pieces::new(self.alloc);
        let mut runs = Pieces::new(self.alloc);
        'words: for word in &self.order {
            words.push(*word)?;
            self.add_runs(*word, &mut runs)?;
        }
        words.shrink_to_fit();
        runs.shrink_to_fit();
        Ok((words, runs))
    }

    /// Adds the runs of a word.
    fn add_runs(&self, word: &[u8], runs: &mut Pieces) -> Result<(), NoMemory>
        requires { (found : List Occurrence) × HasGathered self.now (texts found) found × (has_text (texts found) word.now ≡ true) }
        ensures { OnOk result ((found : List Occurrence) → HasGathered self.now (texts found) found → AddsRuns runs.old runs.new (λ field. hits_in found word.now field)) }
    {
        match self.numbers.get(&Key { word }) {
            None => unreachable!(),
            Some(number) => {
                let start = *number * 5;
                add_rows(self.alloc, &self.rows[start..start + 5], runs)
            }
        }
    }
}

fn add_empty_rows(alloc: Global, rows: &mut Vec<RunWriter>) -> Result<(), NoMemory>
    ensures { OnOk result (rows.new.items ≡ rows.old.items ++ replicate 5 []) }
{
    'fields: for _ in 0..5_usize {
        rows.push(RunWriter::new(alloc))?;
    }
    Ok(())
}

/// Adds the run of each row.
fn add_rows(alloc: Global, rows: &[RunWriter], runs: &mut Pieces) -> Result<(), NoMemory>
    ensures { OnOk result ((made : List (List ℕ)) × (runs.new ≡ runs.old ++ made) × AreRunsOf made rows.now) }
{
    'rows: for row in rows {
        let mut run = Many::new(alloc);
        row.add_to(&mut run)?;
        runs.push(run.as_slice())?;
    }
    Ok(())
}
