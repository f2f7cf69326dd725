//! Rows on tiers, for `answers`: segments that came one after the other, settled once documents have gone, and what words find in them.

ghost use Rattle.std.specs.Prelude.{◌≡◌, ◌<◌, ◌++◌, length, nat_eq, true, IfOk, OnOk};
ghost use Rattle.std.specs.Bool.{OnTrue};
ghost use Rattle.std.specs.List.{AllByRecursion, list_any};
ghost use Rattle.nm_tiers.specs.Tiers.{IsCounted, docs_of, has_doc, living_docs};

use crate::doc_order::{are_docs, rise_on};
use crate::docs::{FIELDS, docs_of, numbers_of, word_list};
use crate::hit_lines::push_numbers;
use nm_base::{Copies, Field, Many, NoMemory, Steps};
use nm_filter::Condition;
use nm_lookup::{AskedWords, find};
use nm_segment::{DocWords, Segment, build};
use nm_tiers::{Tier, Tiers};
use rows::{Lines, Row, RowError, cut, named, words_of};
use std::alloc::Global;
use std::marker::Brand;
use std::sync::ledger::{Blank, Ledger};

/// Which documents have gone; the others live.
#[derive(Drop)]
struct Living {
    gone: Many<u32>,
}

impl Condition for Living {
    ghost use Rattle.std.specs.Prelude.{nat_eq, not};
    ghost use Rattle.std.specs.List.{list_any};

    ghost holds = { λ living doc. not (list_any (nat_eq doc) living.gone) };

    fn test(&self, doc: u32) -> bool {
        !is_among(self.gone.as_slice(), doc)
    }
}

fn is_among(numbers: &[u32], doc: u32) -> bool
    ensures { result ≡ list_any (nat_eq doc) numbers.now }
{
    match numbers.split_first() {
        None => false,
        Some((first, rest)) => doc == *first || is_among(rest, doc),
    }
}

/// Tiers, and the documents that came in them.
#[derive(Drop)]
struct Came {
    tiers: Tiers,
    docs: Many<DocWords>,
}

/// How words are asked for.
const QUESTIONS: [(&[u8], bool); 2] = [(b"whole", false), (b"starts", true)];

/// The answers of the tiers of a row: how many documents of each live, and then those that words find. The documents of the lines
/// `doc` come in as many tiers as the line `tiers` has numbers, each of which counts a tier. Those of the line `gone` have gone.
pub fn push(alloc: Global, row: &Row<'_>, lines: &mut Lines) -> Result<(), RowError> {
    let docs = docs_of(alloc, row, b"doc")?;
    let sizes = numbers_of(alloc, row, b"tiers")?;
    let mut came = Came {
        tiers: Tiers::new(alloc),
        docs: Many::new(alloc),
    };
    add_tiers(alloc, docs.as_slice(), sizes.as_slice(), &mut came)?;
    push_came(alloc, row, came, lines)
}

fn add_tiers(
    alloc: Global,
    docs: &[DocWords],
    sizes: &[u32],
    came: &mut Came,
) -> Result<(), RowError>
    requires { docs_of came.old.tiers ≡ came.old.docs }
    ensures { OnOk result (docs_of came.new.tiers ≡ came.new.docs) }
{
    let mut rest = docs;
    'sizes: for size in sizes {
        let count = *size as usize;
        if rest.len() < count {
            return Err(RowError::Broken("fewer documents than the tiers have"));
        }
        let (part, more) = rest.split_at(count);
        add_tier(alloc, part, came)?;
        rest = more;
    }
    Ok(())
}

fn add_tier(alloc: Global, docs: &[DocWords], came: &mut Came) -> Result<(), RowError>
    requires { docs_of came.old.tiers ≡ came.old.docs }
    ensures { OnOk result (docs_of came.new.tiers ≡ came.new.docs) }
{
    if !are_docs(docs) || !rise_on(came.docs.as_slice(), docs) {
        return Err(RowError::Broken("documents that do not rise"));
    }
    let part = copied(alloc, docs)?;
    came.tiers.push(alloc, build(alloc, &part)?)?;
    append(&mut came.docs, docs)?;
    Ok(())
}

fn copied(alloc: Global, docs: &[DocWords]) -> Result<Many<DocWords>, NoMemory>
    ensures { IfOk result (λ copied. copied ≡ docs.now) }
{
    let mut copied = Many::new(alloc);
    append(&mut copied, docs)?;
    Ok(copied)
}

fn append(list: &mut Many<DocWords>, docs: &[DocWords]) -> Result<(), NoMemory>
    ensures { OnOk result (list.new ≡ list.old ++ docs.now) }
{
    'docs: for doc in docs {
        list.push(doc.copy()?)?;
    }
    Ok(())
}

fn push_came(alloc: Global, row: &Row<'_>, came: Came, lines: &mut Lines) -> Result<(), RowError>
    requires { docs_of came.tiers ≡ came.docs }
{
    let mut came = came;
    let gone = numbers_of(alloc, row, b"gone")?;
    forget_all(gone.as_slice(), &mut came)?;
    let Came { tiers, docs: _ } = came;
    push_settled(alloc, row, tiers, &Living { gone }, lines)
}

fn forget_all(gone: &[u32], came: &mut Came) -> Result<(), RowError>
    requires { docs_of came.old.tiers ≡ came.old.docs }
{
    'gone: for doc in gone {
        if !has(came.docs.as_slice(), *doc) {
            return Err(RowError::Broken("a document that has gone and never came"));
        }
        came.tiers.forget(*doc);
    }
    Ok(())
}

fn has(docs: &[DocWords], doc: u32) -> bool
    ensures { result ≡ has_doc docs.now doc }
{
    match docs.split_first() {
        None => false,
        Some((first, rest)) => doc == first.doc || has(rest, doc),
    }
}

fn push_settled(
    alloc: Global,
    row: &Row<'_>,
    tiers: Tiers,
    living: &Living,
    lines: &mut Lines,
) -> Result<(), RowError> {
    if !are_counted(tiers.as_slice(), living) {
        return Err(RowError::Broken("a tier that counts what has gone"));
    }
    let tiers = tiers.settle(alloc, living)?;
    push_sizes(tiers.as_slice(), lines);
    push_found::<Brand>(alloc, row, &tiers, living, lines, Blank::new(1))
}

fn are_counted<C: Condition>(tiers: &[Tier], living: &C) -> bool
    ensures { OnTrue result (AllByRecursion (IsCounted (C.holds living.now)) tiers.now) }
{
    match tiers.split_first() {
        None => true,
        Some((tier, rest)) => {
            tier.live == living_in(tier.segment.get(), living) && are_counted(rest, living)
        }
    }
}

fn living_in<C: Condition>(segment: &Segment, living: &C) -> usize
    ensures { result ≡ length (living_docs (C.holds living.now) segment.now) }
{
    let mut count = 0_usize;
    'docs: for at in 0..segment.len() {
        let Some(doc) = segment.doc_at(at) else {
            continue;
        };
        if living.test(doc) {
            count += 1;
        }
    }
    count
}

/// How many documents of each tier live.
fn push_sizes(tiers: &[Tier], lines: &mut Lines) {
    lines.begin();
    let mut gap: &[u8] = b"";
    'tiers: for tier in tiers {
        lines.push(gap);
        lines.push_number(tier.live as u64);
        gap = b" ";
    }
    if gap.is_empty() {
        lines.push(b"-");
    }
}

/// What each line `|` finds.
fn push_found<L: Ledger>(
    alloc: Global,
    row: &Row<'_>,
    tiers: &Tiers,
    living: &Living,
    lines: &mut Lines,
    blank: Blank,
) -> Result<(), RowError>
    requires name { blank.name ≡ L.name }
    requires parts { blank.parts ≡ L.parts }
    requires whole { 0 < L.parts }
{
    let mut steps = Steps::<L>::begin(blank);
    'lines: for line in row.lines.as_slice() {
        if line.mark == b"|".as_slice() {
            push_documents(
                alloc,
                line.bytes.as_slice(),
                tiers,
                living,
                lines,
                &mut steps,
            )?;
        }
    }
    Ok(())
}

/// `whole FIELD WORDS` or `starts FIELD WORDS`, where the field is also `any`: the documents that live and have them.
fn push_documents<L: Ledger>(
    alloc: Global,
    line: &[u8],
    tiers: &Tiers,
    living: &Living,
    lines: &mut Lines,
    steps: &mut Steps<L>,
) -> Result<(), RowError> {
    let (question, rest) = cut(line, b' ');
    let (field, rest) = cut(rest, b' ');
    let texts = words_of(alloc, rest)?;
    let words = word_list(alloc, texts.as_slice())?;
    if words.is_empty() {
        return Err(RowError::Broken("no word is asked for"));
    }
    let asked = AskedWords {
        field: field_of(field)?,
        words: &words,
        starts: named(&QUESTIONS, question)?,
    };
    let found = find(alloc, tiers.as_slice(), living, &asked, steps)?;
    lines.begin();
    push_numbers(found.as_slice(), lines);
    if found.is_empty() {
        lines.push(b"-");
    }
    Ok(())
}

fn field_of(name: &[u8]) -> Result<Option<Field>, RowError> {
    if name == b"any".as_slice() {
        return Ok(None);
    }
    Ok(Some(named(&FIELDS, name)?))
}
