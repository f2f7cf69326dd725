//! Merging: the documents of two segments, or those that live, as one segment. `nm_build` joins what workers built by it.

ghost use Rattle.std.specs.Prelude.{◌≡◌, ◌++◌, IfOk};
ghost use Rattle.std.specs.List.Sorted.{IsStrictlySortedBy};
ghost use Rattle.std.specs.Ordering.{nat_cmp};
ghost use Rattle.nm_segment.specs.Docs.{numbers};
ghost use Rattle.nm_segment.specs.Merge.{living};

use crate::live_docs::LiveDocs;
use crate::merged_index::index_of_parts;
use crate::part::Part;
use crate::segment::Segment;
use nm_base::{Many, NoMemory};
use std::alloc::Global;

/// The segment of the documents of both whose numbers are in `live`, in any order. All documents of `front` come before
/// those of `back`. Where all documents of one live, its runs are copied as bytes.
pub fn merge(
    alloc: Global,
    front: &Segment,
    back: &Segment,
    live: &[u32],
) -> Result<Segment, NoMemory>
    requires { IsStrictlySortedBy nat_cmp (numbers (front.now ++ back.now)) }
    ensures { IfOk result (λ segment. segment ≡ living live.now (front.now ++ back.now)) }
{
    let live = LiveDocs::new(alloc, live)?;
    let mut docs = Many::new(alloc);
    let front = Part::new(front, &live, &mut docs)?;
    let back = Part::new(back, &live, &mut docs)?;
    let (words, runs) = index_of_parts(alloc, &front, &back)?;
    Ok(Segment::of_index(docs, words, runs))
}

/// The segment of the documents of both. All documents of `front` come before those of `back`.
pub fn join(alloc: Global, front: &Segment, back: &Segment) -> Result<Segment, NoMemory>
    requires { IsStrictlySortedBy nat_cmp (numbers (front.now ++ back.now)) }
    ensures { IfOk result (λ segment. segment ≡ front.now ++ back.now) }
{
    let mut docs = Many::new(alloc);
    let front = Part::whole(front, &mut docs)?;
    let back = Part::whole(back, &mut docs)?;
    let (words, runs) = index_of_parts(alloc, &front, &back)?;
    Ok(Segment::of_index(docs, words, runs))
}
