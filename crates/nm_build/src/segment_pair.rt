//! Two segments that a worker joins: `pairs` makes such pairs.

ghost use Rattle.std.specs.Prelude.{◌≡◌, ◌++◌};
ghost use Rattle.std.specs.List.Sorted.{IsStrictlySortedBy};
ghost use Rattle.std.specs.Ordering.{nat_cmp};
ghost use Rattle.nm_segment.specs.Docs.{numbers};

use nm_base::NoMemory;
use nm_segment::{Segment, join};
use nm_workers::Job;
use std::alloc::Global;
use std::marker::Model;

/// Two segments, seen as the documents of both, whose numbers rise.
#[derive(Drop)]
pub struct SegmentPair {
    front: Segment,
    back: Segment,
}

impl Model for SegmentPair {
    ghost use Rattle.std.specs.Prelude.{List, ◌++◌};
    ghost use Rattle.std.specs.List.Sorted.{IsStrictlySortedBy};
    ghost use Rattle.std.specs.Ordering.{nat_cmp};
    ghost use Rattle.nm_segment.specs.Docs.{numbers};
    ghost use Rattle.nm_segment.specs.declared.doc_words.DocWords.{DocWords};

    ghost Value = { List DocWords };

    ghost view = { λ p. p.front ++ p.back };

    ghost invariant = { λ p. IsStrictlySortedBy nat_cmp (numbers (p.front ++ p.back)) };
}

impl SegmentPair {
    pub fn new(front: Segment, back: Segment) -> SegmentPair
        requires { IsStrictlySortedBy nat_cmp (numbers (front ++ back)) }
        ensures { result ≡ front ++ back }
    {
        SegmentPair { front, back }
    }
}

/// The job of a worker: two segments are joined.
#[derive(Clone, Copy)]
pub struct JoinPair {
    pub alloc: Global,
}

impl Job for JoinPair {
    type In = SegmentPair;

    type Out = Segment;

    ghost use Rattle.std.specs.Prelude.{◌≡◌};

    ghost gives = { λ _ pair segment. segment ≡ pair };

    fn run(&self, pair: &SegmentPair) -> Result<Segment, NoMemory> {
        join(self.alloc, &pair.front, &pair.back)
    }
}
