//! Rows on segments, for `answers`: what is asked of the documents of a row.

ghost use Rattle.std.specs.Prelude.{◌≡◌, ◌<◌, ◌++◌, IfOk};
ghost use Rattle.std.specs.List.Sorted.{IsStrictlySortedBy};
ghost use Rattle.std.specs.Ordering.{nat_cmp};
ghost use Rattle.nm_segment.specs.Docs.{numbers};

use crate::doc_order::{are_docs, rise_on};
use crate::docs::{FIELDS, docs_of, numbers_of};
use crate::hit_lines::{push_hits, push_numbers, small_of};
use nm_base::{Field, Many, NoMemory, Steps};
use nm_blocks::Hit;
use nm_segment::{DocWords, Postings, Segment, build, join, merge};
use rows::{Lines, Row, RowError, cut, named};
use std::alloc::Global;
use std::marker::Brand;
use std::sync::ledger::{Blank, Ledger};

/// How the segment of a row is made.
#[derive(Clone, Copy)]
pub enum Made {
    /// Of the documents of the lines `doc`.
    Built,
    /// Of that segment, and the one of the lines `back`.
    Joined,
    /// Likewise, of the documents whose numbers are in the lines `live`.
    Merged,
}

/// What is asked of a segment.
#[derive(Clone, Copy)]
enum Question {
    Count,
    Hits,
    Words,
    Start,
}

const QUESTIONS: [(&[u8], Question); 4] = [
    (b"count", Question::Count),
    (b"hits", Question::Hits),
    (b"words", Question::Words),
    (b"start", Question::Start),
];

/// The most words that a line tells.
const MOST_WORDS: usize = 1000;

/// A row, and how its segment is made.
#[derive(Clone, Copy)]
struct Asked<'a> {
    made: Made,
    alloc: Global,
    row: &'a Row<'a>,
}

/// The answers of the segment of a row.
pub fn push(made: Made, alloc: Global, row: &Row<'_>, lines: &mut Lines) -> Result<(), RowError> {
    let docs = docs_of(alloc, row, b"doc")?;
    let asked = Asked { made, alloc, row };
    match made {
        Made::Built => push_built(&asked, &docs, lines),
        _ => push_both(&asked, &docs, lines),
    }
}

fn push_built(asked: &Asked<'_>, docs: &Many<DocWords>, lines: &mut Lines) -> Result<(), RowError> {
    let segment = built(asked.alloc, docs)?;
    push_answers(asked, &segment, lines)
}

fn built(alloc: Global, docs: &Many<DocWords>) -> Result<Segment, RowError>
    ensures { IfOk result (λ segment. segment ≡ docs.now) }
{
    if !are_docs(docs.as_slice()) {
        return Err(RowError::Broken("documents that do not rise"));
    }
    Ok(build(alloc, docs)?)
}

// Each function from here to `live_of_both` owns one list or segment at most, so that few drops are in its proof.
fn push_both(asked: &Asked<'_>, front: &Many<DocWords>, lines: &mut Lines) -> Result<(), RowError> {
    let back = docs_of(asked.alloc, asked.row, b"back")?;
    push_rising(asked, front, &back, lines)
}

fn push_rising(
    asked: &Asked<'_>,
    front: &Many<DocWords>,
    back: &Many<DocWords>,
    lines: &mut Lines,
) -> Result<(), RowError> {
    if !rise_on(front.as_slice(), back.as_slice()) {
        return Err(RowError::Broken("documents that do not rise"));
    }
    let front = built(asked.alloc, front)?;
    push_behind(asked, &front, back, lines)
}

fn push_behind(
    asked: &Asked<'_>,
    front: &Segment,
    back: &Many<DocWords>,
    lines: &mut Lines,
) -> Result<(), RowError>
    requires { IsStrictlySortedBy nat_cmp (numbers (front.now ++ back.now)) }
{
    let back = built(asked.alloc, back)?;
    push_joined(asked, front, &back, lines)
}

fn push_joined(
    asked: &Asked<'_>,
    front: &Segment,
    back: &Segment,
    lines: &mut Lines,
) -> Result<(), RowError>
    requires { IsStrictlySortedBy nat_cmp (numbers (front.now ++ back.now)) }
{
    let segment = of_both(asked, front, back)?;
    push_answers(asked, &segment, lines)
}

fn of_both(asked: &Asked<'_>, front: &Segment, back: &Segment) -> Result<Segment, RowError>
    requires { IsStrictlySortedBy nat_cmp (numbers (front.now ++ back.now)) }
{
    match asked.made {
        Made::Merged => live_of_both(asked, front, back),
        _ => Ok(join(asked.alloc, front, back)?),
    }
}

fn live_of_both(asked: &Asked<'_>, front: &Segment, back: &Segment) -> Result<Segment, RowError>
    requires { IsStrictlySortedBy nat_cmp (numbers (front.now ++ back.now)) }
{
    let live = numbers_of(asked.alloc, asked.row, b"live")?;
    Ok(merge(asked.alloc, front, back, live.as_slice())?)
}

fn push_answers(asked: &Asked<'_>, segment: &Segment, lines: &mut Lines) -> Result<(), RowError> {
    push_counted::<Brand>(asked, segment, lines, Blank::new(1))
}

/// The answers, with a count of steps, which no code reads.
fn push_counted<L: Ledger>(
    asked: &Asked<'_>,
    segment: &Segment,
    lines: &mut Lines,
    blank: Blank,
) -> Result<(), RowError>
    requires name { blank.name ≡ L.name }
    requires parts { blank.parts ≡ L.parts }
    requires whole { 0 < L.parts }
{
    let mut steps = Steps::<L>::begin(blank);
    'lines: for line in asked.row.lines.as_slice() {
        if line.mark == b"|".as_slice() {
            push_answer(
                asked.alloc,
                segment,
                line.bytes.as_slice(),
                lines,
                &mut steps,
            )?;
        }
    }
    Ok(())
}

fn push_answer<L: Ledger>(
    alloc: Global,
    segment: &Segment,
    line: &[u8],
    lines: &mut Lines,
    steps: &mut Steps<L>,
) -> Result<(), RowError> {
    let (question, rest) = cut(line, b' ');
    match named(&QUESTIONS, question)? {
        Question::Count => push_count(segment, lines),
        Question::Hits => return push_postings(alloc, segment, rest, lines, steps),
        Question::Words => return push_words(segment, rest, lines, steps),
        Question::Start => push_starting(segment, rest, lines, steps),
    }
    Ok(())
}

/// How many documents there are.
fn push_count(segment: &Segment, lines: &mut Lines) {
    lines.begin();
    lines.push_number(segment.len() as u64);
}

/// `FIELD WORD`: the hits of the word in the field.
fn push_postings<L: Ledger>(
    alloc: Global,
    segment: &Segment,
    asked: &[u8],
    lines: &mut Lines,
    steps: &mut Steps<L>,
) -> Result<(), RowError> {
    let (field, word) = cut(asked, b' ');
    let field = named(&FIELDS, field)?;
    let mut postings = segment.postings(word, field, steps);
    let hits = hits_left(alloc, &mut postings, steps)?;
    push_hits(hits.as_slice(), lines);
    Ok(())
}

fn hits_left<L: Ledger>(
    alloc: Global,
    postings: &mut Postings<'_>,
    steps: &mut Steps<L>,
) -> Result<Many<Hit>, NoMemory> {
    let mut hits = Many::new(alloc);
    'hits: while let Some(hit) = postings.next(steps) {
        hits.push(hit)?;
    }
    Ok(hits)
}

/// `NUMBER`: the words of the document, each after its field, its list and its place.
fn push_words<L: Ledger>(
    segment: &Segment,
    asked: &[u8],
    lines: &mut Lines,
    steps: &mut Steps<L>,
) -> Result<(), RowError> {
    let mut words = segment.words_of(small_of(asked)?, steps);
    lines.begin();
    let mut gap: &[u8] = b"";
    'words: while let Some((list, place, word)) = words.next(steps) {
        lines.push(gap);
        lines.push(field_name(words.field(list)));
        lines.push(b" ");
        push_numbers(&[list, place], lines);
        lines.push_after_blank(word);
        gap = b", ";
    }
    if gap.is_empty() {
        lines.push(b"-");
    }
    Ok(())
}

fn field_name(field: Option<Field>) -> &'static [u8] {
    match field {
        None => b"no field",
        Some(field) => FIELDS[usize::from(field.number())].0,
    }
}

/// `TEXT`: the words that begin with it.
fn push_starting<L: Ledger>(
    segment: &Segment,
    asked: &[u8],
    lines: &mut Lines,
    steps: &mut Steps<L>,
) {
    lines.begin();
    let mut gap: &[u8] = b"";
    'words: for at in 0..MOST_WORDS {
        let Some(word) = segment.with_start(asked, at, steps) else {
            break;
        };
        lines.push(gap);
        lines.push(word);
        gap = b", ";
    }
    if gap.is_empty() {
        lines.push(b"-");
    }
}
