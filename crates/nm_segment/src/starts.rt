//! The words that begin with a text, among words in order: a `Segment` gives them one by one.

ghost use Rattle.std.specs.Prelude.{◌≡◌, ◌≤◌, MatchOption, Some, length, slice_get};
ghost use Rattle.nm_base.specs.Order.{IsSorted};
ghost use Rattle.nm_segment.specs.Costs.{SearchSteps};
ghost use Rattle.nm_segment.specs.Starts.{FoundSteps, IsCountBelow, starting};

use crate::pieces::Pieces;
use nm_base::Steps;
use std::cmp::Ordering;
use std::sync::ledger::Ledger;

/// The word at a place among those that begin with `start`.
pub fn word_with_start<'a, L: Ledger>(
    words: &'a Pieces,
    start: &[u8],
    at: usize,
    steps: &mut Steps<L>,
) -> Option<&'a [u8]>
    requires { IsSorted words.now }
    ensures word { MatchOption result (length (starting start.now words.now) ≤ at) (λ word. slice_get (starting start.now words.now) at ≡ Some word.now) }
    ensures steps { MatchOption result (SearchSteps (length words.now) steps.old steps.new) (λ word. FoundSteps (length words.now) steps.old steps.new) }
{
    let place = count_below(words, start, steps).saturating_add(at);
    if place >= words.len() {
        return None;
    }
    let word = words.get(place);
    if !word.starts_with(start) {
        return None;
    }
    steps.tick();
    Some(word)
}

/// How many words are below `start`.
fn count_below<L: Ledger>(words: &Pieces, start: &[u8], steps: &mut Steps<L>) -> usize
    requires { IsSorted words.now }
    ensures place { IsCountBelow words.now start.now result }
    ensures steps { SearchSteps (length words.now) steps.old steps.new }
{
    let mut low = 0;
    let mut high = words.len();
    'probes: while low < high {
        let middle = low + (high - low) / 2;
        steps.tick();
        match start.cmp(words.get(middle)) {
            Ordering::Greater => low = middle + 1,
            _ => high = middle,
        }
    }
    low
}
