//! The documents that live and have words, tier after tier, for `test_segment`.

ghost use Rattle.std.specs.Prelude.{◌≡◌, ◌≢◌, ◌≤◌, ◌++◌, ℕ, List, [], ◌∷◌, Some, false, IfOk, OnOk};
ghost use Rattle.std.specs.List.{filter};
ghost use Rattle.nm_base.specs.declared.facts.Field.{Field};
ghost use Rattle.nm_lookup.specs.Lookup.{WalksSteps, living_having};
ghost use Rattle.nm_tiers.specs.Tiers.{docs_of};

use crate::AskedWords;
use crate::fields::in_segment;
use nm_base::{Many, NoMemory, Steps};
use nm_filter::Condition;
use nm_tiers::Tier;
use std::alloc::Global;
use std::sync::ledger::Ledger;

/// The documents of the tiers that live and have the words, in order. One word in one field takes a search and a step for each of its hits in
/// each tier.
pub fn find<C: Condition, L: Ledger>(
    alloc: Global,
    tiers: &[Tier],
    living: &C,
    asked: &AskedWords<'_>,
    steps: &mut Steps<L>,
) -> Result<Many<u32>, NoMemory>
    requires some { asked.now.words.now ≢ [] }
    ensures found { IfOk result (λ docs. docs ≡ living_having (C.holds living.now) asked.now.field asked.now.starts asked.now.words.now (docs_of tiers.now)) }
    ensures one_word { (word : List ℕ) (field : Field) → asked.now.field ≡ Some field → asked.now.starts ≡ false → asked.now.words.now ≡ word ∷ []
        → IfOk result (λ _. WalksSteps tiers.now word field steps.old steps.new) }
    ensures steps { steps.old ≤ steps.new }
{
    let mut docs = Many::new(alloc);
    'tiers: for tier in tiers {
        let found = in_segment(alloc, tier.segment.get(), asked, steps)?;
        push_living(&mut docs, found.as_slice(), living)?;
    }
    Ok(docs)
}

/// Adds the documents that live.
fn push_living<C: Condition>(
    docs: &mut Many<u32>,
    found: &[u32],
    living: &C,
) -> Result<(), NoMemory>
    ensures { OnOk result (docs.new ≡ docs.old ++ filter (C.holds living.now) found.now) }
{
    'found: for doc in found {
        if living.test(*doc) {
            docs.push(*doc)?;
        }
    }
    Ok(())
}
