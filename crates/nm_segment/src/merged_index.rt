//! The words and the runs of two parts as one: `merged_segment` is made of them.

ghost use Rattle.std.specs.Prelude.{◌≡◌, ◌+◌, ◌<◌, ◌≤◌, ◌^◌, ◌++◌, None, Some, ℕ, List, length, IfOk, MatchOption, OnOk};
ghost use Rattle.nm_base.specs.Order.{has_text};
ghost use Rattle.nm_segment.specs.Docs.{hits_of, words as words_of};
ghost use Rattle.nm_segment.specs.Merge.{IsNext, IsPlace, docs_of_part};
ghost use Rattle.nm_segment.specs.Runs.{AddsRuns, AddsWord, AreRuns};

use crate::fields::field_at;
use crate::part::Part;
use crate::pieces::Pieces;
use nm_base::{Many, NoMemory};
use std::alloc::Global;
use std::cmp::Ordering;

/// A word, its place in each of two lists of words, which is none where a list lacks it, and where the lists go on after it.
#[derive(Drop)]
pub struct Next<'a> {
    word: &'a [u8],
    front: Option<usize>,
    back: Option<usize>,
    rest: (usize, usize),
}

/// The words of both parts in byte order, and the run of each in each field. Words without a hit that lives go.
pub fn index_of_parts(
    alloc: Global,
    front: &Part,
    back: &Part,
) -> Result<(Pieces, Pieces), NoMemory>
    ensures words { IfOk result (λ index. index.0 ≡ words_of (docs_of_part front.now ++ docs_of_part back.now)) }
    ensures runs { IfOk result (λ index. AreRuns index.1 index.0 (hits_of (docs_of_part front.now ++ docs_of_part back.now))) }
{
    let mut words = Pieces::new(alloc);
    let mut runs = Pieces::new(alloc);
    let mut at = 0;
    let mut other = 0;
    'words: while let Some(next) = next_word(
        front.segment.words(),
        at,
        back.segment.words(),
        other,
    ) {
        add_next(alloc, front, back, &next, &mut words, &mut runs)?;
        (at, other) = next.rest;
    }
    words.shrink_to_fit();
    runs.shrink_to_fit();
    Ok((words, runs))
}

/// The first of the words from a place on in each of two lists.
fn next_word<'a>(front: &'a Pieces, at: usize, back: &'a Pieces, other: usize) -> Option<Next<'a>>
    ensures { MatchOption result ((length front.now ≤ at) × (length back.now ≤ other)) (IsNext front.now at back.now other) }
{
    if at >= front.len() {
        if other >= back.len() {
            return None;
        }
        return Some(of_back(back.get(other), at, other));
    }
    let word = front.get(at);
    if other >= back.len() {
        return Some(of_front(word, at, other));
    }
    match word.cmp(back.get(other)) {
        Ordering::Less => Some(of_front(word, at, other)),
        Ordering::Equal => Some(Next {
            word,
            front: Some(at),
            back: Some(other),
            rest: (at + 1, other + 1),
        }),
        Ordering::Greater => Some(of_back(back.get(other), at, other)),
    }
}

fn of_front(word: &[u8], at: usize, other: usize) -> Next<'_>
    requires { at + 1 < 2 ^ 64 }
    ensures word { result.word.now ≡ word.now }
    ensures places { (result.front ≡ Some at) × (result.back ≡ None) × (result.rest ≡ (at + 1, other)) }
{
    Next {
        word,
        front: Some(at),
        back: None,
        rest: (at + 1, other),
    }
}

fn of_back(word: &[u8], at: usize, other: usize) -> Next<'_>
    requires { other + 1 < 2 ^ 64 }
    ensures word { result.word.now ≡ word.now }
    ensures places { (result.front ≡ None) × (result.back ≡ Some other) × (result.rest ≡ (at, other + 1)) }
{
    Next {
        word,
        front: None,
        back: Some(other),
        rest: (at, other + 1),
    }
}

/// Adds a word with its runs, where it has a hit that lives.
fn add_next(
    alloc: Global,
    front: &Part,
    back: &Part,
    next: &Next,
    words: &mut Pieces,
    runs: &mut Pieces,
) -> Result<(), NoMemory>
    requires front { IsPlace (words_of front.now.segment.now) next.now.word.now next.now.front }
    requires back { IsPlace (words_of back.now.segment.now) next.now.word.now next.now.back }
    ensures { OnOk result (AddsWord (has_text (words_of (docs_of_part front.now ++ docs_of_part back.now)) next.now.word.now) (words.old, runs.old) (words.new, runs.new) next.now.word.now (hits_of (docs_of_part front.now ++ docs_of_part back.now) next.now.word.now)) }
{
    if !has_word(front, back, next) {
        return Ok(());
    }
    words.push(next.word)?;
    add_runs(alloc, front, back, next, runs)
}

/// Whether one of the parts has a hit of a word.
fn has_word(front: &Part, back: &Part, next: &Next) -> bool
    requires front { IsPlace (words_of front.now.segment.now) next.now.word.now next.now.front }
    requires back { IsPlace (words_of back.now.segment.now) next.now.word.now next.now.back }
    ensures { result ≡ has_text (words_of (docs_of_part front.now ++ docs_of_part back.now)) next.now.word.now }
{
    if front.has(next.front) {
        return true;
    }
    back.has(next.back)
}

/// Adds the runs of a word.
fn add_runs(
    alloc: Global,
    front: &Part,
    back: &Part,
    next: &Next,
    runs: &mut Pieces,
) -> Result<(), NoMemory>
    requires front { IsPlace (words_of front.now.segment.now) next.now.word.now next.now.front }
    requires back { IsPlace (words_of back.now.segment.now) next.now.word.now next.now.back }
    ensures { OnOk result (AddsRuns runs.old runs.new (hits_of (docs_of_part front.now ++ docs_of_part back.now) next.now.word.now)) }
{
    'fields: for number in 0..5_usize {
        let field = field_at(number);
        let mut run = Many::new(alloc);
        front.add_run(alloc, next.front, field, &mut run)?;
        back.add_run(alloc, next.back, field, &mut run)?;
        runs.push(run.as_slice())?;
    }
    Ok(())
}
