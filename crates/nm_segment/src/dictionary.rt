//! The words of a segment in order, found by halves: a `Segment` looks each word up here.

ghost use Rattle.std.specs.Prelude.{◌≡◌, [], MatchOption, Some, length, slice_get, false};
ghost use Rattle.nm_base.specs.Order.{IsSorted, has_text};
ghost use Rattle.nm_segment.specs.Costs.{SearchSteps};

use crate::pieces::Pieces;
use nm_base::Steps;
use std::cmp::Ordering;
use std::sync::ledger::Ledger;

/// Where a word is among words in order.
pub fn place_of<L: Ledger>(words: &Pieces, word: &[u8], steps: &mut Steps<L>) -> Option<usize>
    requires { IsSorted words.now }
    ensures place { MatchOption result (has_text words.now word.now ≡ false) (λ at. slice_get words.now at ≡ Some word.now) }
    ensures steps { SearchSteps (length words.now) steps.old steps.new }
{
    let mut low = 0;
    let mut high = words.len();
    'probes: while low < high {
        let middle = low + (high - low) / 2;
        steps.tick();
        match word.cmp(words.get(middle)) {
            Ordering::Less => high = middle,
            Ordering::Equal => return Some(middle),
            Ordering::Greater => low = middle + 1,
        }
    }
    None
}
