//! Tiers are settled: those in which nothing lives go, and small ones are merged. `tiers` calls it.

ghost use Rattle.std.specs.Prelude.{◌≡◌, ◌++◌, ◌*◌, ◌<◌, ◌≤◌, false, true, reverse, IfOk, OnOk};
ghost use Rattle.std.specs.List.{AllByRecursion};
ghost use Rattle.std.specs.List.Sorted.{IsStrictlySortedBy};
ghost use Rattle.std.specs.Ordering.{nat_cmp};
ghost use Rattle.nm_segment.specs.Docs.{numbers};
ghost use Rattle.nm_tiers.specs.Tiers.{AreSettled, IsAdded, IsCounted, docs_of, living_docs, sizes_of};

use crate::tier::{Tier, merged};
use nm_base::{Many, NoMemory};
use nm_filter::Condition;
use std::alloc::Global;

/// The tiers, the newest first, of which none is empty, and each that is less than twice as large as the next newer one is merged with it.
pub(crate) fn settled<C: Condition>(
    alloc: Global,
    tiers: Many<Tier>,
    living: &C,
) -> Result<Many<Tier>, NoMemory>
    requires rising { IsStrictlySortedBy nat_cmp (numbers (docs_of tiers)) }
    requires counted { AllByRecursion (IsCounted (C.holds living.now)) tiers }
    ensures docs { IfOk result (λ newer. living_docs (C.holds living.now) (docs_of (reverse newer)) ≡ living_docs (C.holds living.now) (docs_of tiers)) }
    ensures rising { IfOk result (λ newer. IsStrictlySortedBy nat_cmp (numbers (docs_of (reverse newer)))) }
    ensures counted { IfOk result (λ newer. AllByRecursion (IsCounted (C.holds living.now)) (reverse newer)) }
    ensures settled { IfOk result (λ newer. AreSettled (sizes_of (reverse newer))) }
{
    let mut rest = tiers;
    let mut newer = Many::new(alloc);
    'tiers: while let Some(tier) = rest.pop() {
        if tier.live > 0 {
            add_older(alloc, tier, &mut newer, living)?;
        }
    }
    Ok(newer)
}

/// Puts an older tier behind newer ones, of which the oldest comes last, or merges it with that one.
fn add_older<C: Condition>(
    alloc: Global,
    tier: Tier,
    newer: &mut Many<Tier>,
    living: &C,
) -> Result<(), NoMemory>
    requires some { 0 < tier.live }
    requires counted { IsCounted (C.holds living.now) tier }
    requires rising { IsStrictlySortedBy nat_cmp (numbers (tier.segment ++ docs_of (reverse newer.old))) }
    requires all_counted { AllByRecursion (IsCounted (C.holds living.now)) (reverse newer.old) }
    requires settled { AreSettled (sizes_of (reverse newer.old)) }
    ensures added { OnOk result (IsAdded (C.holds living.now) tier (reverse newer.old) (reverse newer.new)) }
{
    match newer.pop() {
        None => newer.push(tier),
        Some(next) => {
            if is_crowded(tier.live, next.live) {
                let merged = merged(alloc, &tier, &next, living)?;
                newer.push(merged)
            } else {
                newer.push(next)?;
                newer.push(tier)
            }
        }
    }
}

/// Whether a tier is less than twice as large as the next newer one.
fn is_crowded(size: usize, next: usize) -> bool
    ensures crowded { result ≡ true → size < 2 * next }
    ensures twice { result ≡ false → 2 * next ≤ size }
{
    size.saturating_sub(next) < next
}

/// The tiers the other way round.
pub(crate) fn reversed(alloc: Global, tiers: Many<Tier>) -> Result<Many<Tier>, NoMemory>
    ensures { IfOk result (λ list. list ≡ reverse tiers) }
{
    let mut rest = tiers;
    let mut list = Many::new(alloc);
    'tiers: while let Some(tier) = rest.pop() {
        list.push(tier)?;
    }
    Ok(list)
}
