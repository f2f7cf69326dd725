//! Whether documents are in order, as a segment asks: `segment_rows` tests it.

ghost use Rattle.std.specs.Prelude.{◌≡◌, ◌<◌, ◌^◌, ◌++◌, IsTrue, length};
ghost use Rattle.std.specs.List.{AllByRecursion};
ghost use Rattle.std.specs.List.Sorted.{IsStrictlySortedBy};
ghost use Rattle.std.specs.Ordering.{nat_cmp};
ghost use Rattle.std.specs.declared.cmp.Ordering.TheVariants.{Less};
ghost use Rattle.nm_segment.specs.Docs.{AreDocs, AreFew, numbers};

use nm_base::FieldWords;
use nm_segment::DocWords;
use std::cmp::Ordering;

/// Whether the numbers of documents rise, and their lists and words can be counted.
pub fn are_docs(docs: &[DocWords]) -> bool
    ensures { IsTrue result → AreDocs docs.now }
{
    have_rising_numbers(docs) && all_are_few(docs)
}

/// Whether the numbers of documents rise, from those in front to those after.
#[tactic(auto, using(crate::proofs::DocLemmas::none_before, crate::proofs::DocLemmas::first_rises_on))]
pub fn rise_on(front: &[DocWords], back: &[DocWords]) -> bool
    ensures { IsTrue result → IsStrictlySortedBy nat_cmp (numbers (front.now ++ back.now)) }
{
    match front.split_first() {
        None => have_rising_numbers(back),
        Some((doc, rest)) => {
            are_above(doc.doc, rest) && are_above(doc.doc, back) && rise_on(rest, back)
        }
    }
}

#[tactic(auto, using(crate::proofs::DocLemmas::none_rise, crate::proofs::DocLemmas::first_rises))]
fn have_rising_numbers(docs: &[DocWords]) -> bool
    ensures { IsTrue result → IsStrictlySortedBy nat_cmp (numbers docs.now) }
{
    match docs.split_first() {
        None => true,
        Some((doc, rest)) => are_above(doc.doc, rest) && have_rising_numbers(rest),
    }
}

fn are_above(number: u32, docs: &[DocWords]) -> bool
    ensures { IsTrue result → AllByRecursion (λ other. nat_cmp number other ≡ Less) (numbers docs.now) }
{
    match docs.split_first() {
        None => true,
        Some((doc, rest)) => number.cmp(&doc.doc) == Ordering::Less && are_above(number, rest),
    }
}

fn all_are_few(docs: &[DocWords]) -> bool
    ensures { IsTrue result → AllByRecursion (λ d. AreFew d.lists) docs.now }
{
    match docs.split_first() {
        None => true,
        Some((doc, rest)) => are_few(doc.lists.get().as_slice()) && all_are_few(rest),
    }
}

fn are_few(lists: &[FieldWords]) -> bool
    ensures { IsTrue result → AreFew lists.now }
{
    lists.len() <= u32::MAX as usize && are_short(lists)
}

fn are_short(lists: &[FieldWords]) -> bool
    ensures { IsTrue result → AllByRecursion (λ list. length list.words < 2 ^ 32) lists.now }
{
    match lists.split_first() {
        None => true,
        Some((list, rest)) => list.words.len() <= u32::MAX as usize && are_short(rest),
    }
}
