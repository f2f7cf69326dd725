//! A tier: a segment, and how many of its documents live. `tiers` lists them, and `settling` merges two.

ghost use Rattle.std.specs.Prelude.{◌≡◌, ◌++◌, length, IfOk, OnOk};
ghost use Rattle.std.specs.List.{filter};
ghost use Rattle.std.specs.List.Sorted.{IsStrictlySortedBy};
ghost use Rattle.std.specs.Ordering.{nat_cmp};
ghost use Rattle.nm_segment.specs.Docs.{numbers};
ghost use Rattle.nm_tiers.specs.Tiers.{living_docs};

use nm_base::{Copies, Many, NoMemory};
use nm_filter::Condition;
use nm_segment::{Segment, merge};
use nm_shared::Shared;
use std::alloc::Global;

/// A segment, which snapshots share, and how many of its documents live.
#[derive(Drop)]
pub struct Tier {
    pub segment: Shared<Segment>,
    pub live: usize,
}

/// The copy shares the segment.
impl Copies for Tier {
    fn copy(&self) -> Result<Tier, NoMemory> {
        Ok(Tier {
            segment: self.segment.copy()?,
            live: self.live,
        })
    }
}

/// The documents of two tiers that live, as one tier.
pub(crate) fn merged<C: Condition>(
    alloc: Global,
    front: &Tier,
    back: &Tier,
    living: &C,
) -> Result<Tier, NoMemory>
    requires { IsStrictlySortedBy nat_cmp (numbers (front.now.segment ++ back.now.segment)) }
    ensures docs { IfOk result (λ tier. tier.segment ≡ living_docs (C.holds living.now) (front.now.segment ++ back.now.segment)) }
    ensures count { IfOk result (λ tier. tier.live ≡ length tier.segment) }
{
    let mut live = Many::new(alloc);
    push_living(&mut live, front.segment.get(), living)?;
    push_living(&mut live, back.segment.get(), living)?;
    let segment = merge(
        alloc,
        front.segment.get(),
        back.segment.get(),
        live.as_slice(),
    )?;
    let count = segment.len();
    Ok(Tier {
        segment: Shared::new(alloc, segment)?,
        live: count,
    })
}

/// Adds the numbers of the documents that live.
fn push_living<C: Condition>(
    live: &mut Many<u32>,
    segment: &Segment,
    living: &C,
) -> Result<(), NoMemory>
    ensures { OnOk result (live.new ≡ live.old ++ filter (C.holds living.now) (numbers segment.now)) }
{
    'docs: for at in 0..segment.len() {
        let Some(doc) = segment.doc_at(at) else {
            continue;
        };
        if living.test(doc) {
            live.push(doc)?;
        }
    }
    Ok(())
}
