//! The tier of a document, for `tiers`: the last one that doesn't begin after it.

ghost use Rattle.std.specs.Prelude.{◌≡◌, ◌<◌, ◌≤◌, [], length, true, false, slice_index_or};
ghost use Rattle.std.specs.List.Sorted.{IsStrictlySortedBy};
ghost use Rattle.std.specs.Ordering.{nat_cmp};
ghost use Rattle.nm_segment.specs.Docs.{numbers};
ghost use Rattle.nm_tiers.specs.Tiers.{HasTier, begins_by, docs_of, has_doc};

use crate::tier::Tier;

/// The place of the tier that has the document.
pub(crate) fn tier_of(tiers: &[Tier], doc: u32) -> usize
    requires rising { IsStrictlySortedBy nat_cmp (numbers (docs_of tiers.now)) }
    requires there { has_doc (docs_of tiers.now) doc ≡ true }
    ensures { HasTier tiers.now doc result }
{
    let mut found = 0;
    'tiers: for at in 0..tiers.len() {
        if begins_by(&tiers[at], doc) {
            found = at;
        }
    }
    found
}

/// Whether the first document of a tier is this one or comes before it.
fn begins_by(tier: &Tier, doc: u32) -> bool
    ensures { result ≡ begins_by tier.now.segment doc }
{
    match tier.segment.get().doc_at(0) {
        None => false,
        Some(first) => first <= doc,
    }
}
