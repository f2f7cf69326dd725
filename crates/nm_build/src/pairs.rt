//! Segments are put together two by two, for `workers`.

ghost use Rattle.std.specs.Prelude.{◌≡◌, ◌+◌, ◌*◌, ◌++◌, length, IfOk};
ghost use Rattle.std.specs.List.Sorted.{IsStrictlySortedBy};
ghost use Rattle.std.specs.Ordering.{nat_cmp};
ghost use Rattle.nm_build.specs.Parts.{count_of, docs_of, joined};
ghost use Rattle.nm_segment.specs.Docs.{numbers};

use crate::segment_pair::SegmentPair;
use nm_base::{Many, NoMemory};
use nm_segment::Segment;
use std::alloc::Global;

/// The pairs of segments that follow one another. The last one stays alone where their number is odd.
pub fn pair_up(
    alloc: Global,
    segments: Many<Segment>,
) -> Result<(Many<SegmentPair>, Option<Segment>), NoMemory>
    requires { IsStrictlySortedBy nat_cmp (numbers (joined segments)) }
    ensures docs { IfOk result (λ found. joined found.0 ++ docs_of found.1 ≡ joined segments) }
    ensures count { IfOk result (λ found. 2 * length found.0 + count_of found.1 ≡ length segments) }
{
    let mut pairs = Many::new(alloc);
    let mut held: Option<Segment> = None;
    'segments: for segment in segments.into_vec() {
        match held {
            None => held = Some(segment),
            Some(front) => {
                held = None;
                pairs.push(SegmentPair::new(front, segment))?;
            }
        }
    }
    Ok((pairs, held))
}
