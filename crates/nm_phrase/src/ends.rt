//! The hits at which words end: `front` and `phrase` go on from word to word with them.

ghost use Rattle.std.specs.Prelude.{◌≡◌, ◌≤◌, true, filter, IfOk};
ghost use Rattle.nm_blocks.specs.Hits.{is_rising};
ghost use Rattle.nm_phrase.specs.Ends.{are_rising, follows, narrowed};

use crate::follow::{drop_before, first_is_before};
use nm_base::{Many, NoMemory, Steps};
use nm_blocks::Hit;
use nm_segment::Postings;
use std::alloc::Global;
use std::sync::ledger::Ledger;

/// The hits that are right after the words before, where there are any.
pub(crate) fn narrowed<L: Ledger>(
    alloc: Global,
    before: &Option<Many<Hit>>,
    postings: Postings<'_>,
    steps: &mut Steps<L>,
) -> Result<Many<Hit>, NoMemory>
    requires ends { are_rising before.now ≡ true }
    requires hits { is_rising postings ≡ true }
    ensures hits { IfOk result (λ hits. hits ≡ narrowed before.now postings.entry) }
    ensures steps { steps.old ≤ steps.new }
{
    match before {
        None => all_hits(alloc, postings, steps),
        Some(ends) => following(alloc, ends.as_slice(), postings, steps),
    }
}

fn all_hits<L: Ledger>(
    alloc: Global,
    postings: Postings<'_>,
    steps: &mut Steps<L>,
) -> Result<Many<Hit>, NoMemory>
    ensures hits { IfOk result (λ hits. hits ≡ postings.entry) }
    ensures steps { steps.old ≤ steps.new }
{
    let mut postings = postings;
    let mut hits = Many::new(alloc);
    'hits: while let Some(hit) = postings.next(steps) {
        hits.push(hit)?;
    }
    Ok(hits)
}

/// The hits that are right after one of the ends, in one walk over both.
fn following<L: Ledger>(
    alloc: Global,
    ends: &[Hit],
    postings: Postings<'_>,
    steps: &mut Steps<L>,
) -> Result<Many<Hit>, NoMemory>
    requires ends { is_rising ends.now ≡ true }
    requires hits { is_rising postings ≡ true }
    ensures hits { IfOk result (λ hits. hits ≡ filter (follows ends.now) postings.entry) }
    ensures steps { steps.old ≤ steps.new }
{
    let mut rest = ends;
    let mut postings = postings;
    let mut hits = Many::new(alloc);
    'hits: while let Some(hit) = postings.next(steps) {
        rest = drop_before(rest, hit);
        if !first_is_before(rest, hit) {
            continue 'hits;
        }
        hits.push(hit)?;
    }
    Ok(hits)
}
