//! The hits of a word that are left, each of which is a step: a `Segment` hands them out.

ghost use Rattle.std.specs.Prelude.{◌≡◌, ◌+◌, ◌∷◌, [], MatchOption};
ghost use Rattle.nm_blocks.specs.Blocks.{run_hits};

use nm_base::Steps;
use nm_blocks::{Hit, Unpack};
use std::marker::Model;
use std::sync::ledger::Ledger;

/// The hits of a word in a field that are left, in order.
#[derive(Drop)]
pub struct Postings<'a> {
    hits: Unpack<'a>,
}

impl<'a> Model for Postings<'a> {
    ghost use Rattle.std.specs.Prelude.{List};
    ghost use Rattle.nm_blocks.specs.declared.hit.Hit.{Hit};

    ghost Value = { List Hit };

    ghost view = { λ p. p.hits };
}

impl<'a> Postings<'a> {
    pub(crate) fn new(run: &'a [u8]) -> Postings<'a>
        ensures { result ≡ run_hits run.now }
    {
        Postings {
            hits: Unpack::new(run),
        }
    }

    /// Takes the first hit, in one step.
    pub fn next<L: Ledger>(&mut self, steps: &mut Steps<L>) -> Option<Hit>
        ensures hit { MatchOption result ((self.old ≡ []) × (self.new ≡ [])) (λ hit. self.old ≡ hit ∷ self.new) }
        ensures steps { MatchOption result (steps.new ≡ steps.old) (λ hit. steps.new ≡ steps.old + 1) }
    {
        let hit = self.hits.next()?;
        steps.tick();
        Some(hit)
    }
}
