//! The parts of the documents are built by workers, and joined by them: the writer builds its segments so.

ghost use Rattle.std.specs.Prelude.{◌≡◌, ◌+◌, ◌<◌, ◌≤◌, ◌++◌, length, IfOk};
ghost use Rattle.std.specs.List.Sorted.{IsStrictlySortedBy};
ghost use Rattle.std.specs.Ordering.{nat_cmp};
ghost use Rattle.nm_build.specs.Parts.{count_of, docs_of, joined};
ghost use Rattle.nm_segment.specs.Docs.{AreDocs, numbers};

use crate::cut::cut_docs;
use crate::docs_part::BuildPart;
use crate::pairs::pair_up;
use crate::segment_pair::JoinPair;
use nm_base::{Many, NoMemory};
use nm_segment::{DocWords, Segment, build};
use nm_workers::{OpenGate, map_jobs};
use std::alloc::Global;
use std::sync::Wait;
use std::thread::Threads;

/// The segment of documents whose numbers rise, built by 1 to 16 workers.
pub fn build_by_workers<R: Threads + Wait + Sync>(
    rt: &R,
    alloc: Global,
    docs: &Many<DocWords>,
    workers: u32,
) -> Result<Segment, NoMemory>
    requires docs { AreDocs docs.now }
    requires workers { (0 < workers) × (workers ≤ 16) }
    ensures { IfOk result (λ segment. segment ≡ docs.now) }
{
    let len = (docs.len() / workers as usize).saturating_add(1);
    let parts = cut_docs(alloc, docs.as_slice(), len)?;
    let segments = map_jobs(rt, alloc, &BuildPart { alloc }, &parts, workers, &OpenGate)?;
    join_all(rt, alloc, segments, workers)
}

/// Joins segments, two by two, until there is one.
fn join_all<R: Threads + Wait + Sync>(
    rt: &R,
    alloc: Global,
    segments: Many<Segment>,
    workers: u32,
) -> Result<Segment, NoMemory>
    requires rising { IsStrictlySortedBy nat_cmp (numbers (joined segments)) }
    requires workers { (0 < workers) × (workers ≤ 16) }
    ensures { IfOk result (λ segment. segment ≡ joined segments) }
{
    let mut rest = segments;
    'rounds: while rest.len() > 1 {
        rest = join_once(rt, alloc, rest, workers)?;
    }
    match rest.pop() {
        None => build(alloc, &Many::new(alloc)),
        Some(segment) => Ok(segment),
    }
}

/// Joins each segment with the one after it.
fn join_once<R: Threads + Wait + Sync>(
    rt: &R,
    alloc: Global,
    segments: Many<Segment>,
    workers: u32,
) -> Result<Many<Segment>, NoMemory>
    requires some { 1 < length segments }
    requires rising { IsStrictlySortedBy nat_cmp (numbers (joined segments)) }
    requires workers { (0 < workers) × (workers ≤ 16) }
    ensures docs { IfOk result (λ found. joined found ≡ joined segments) }
    ensures fewer { IfOk result (λ found. length found < length segments) }
{
    let (pairs, last) = pair_up(alloc, segments)?;
    let found = map_jobs(rt, alloc, &JoinPair { alloc }, &pairs, workers, &OpenGate)?;
    with_last(found, last)
}

/// Segments, and one more after them, if there is one.
fn with_last(segments: Many<Segment>, last: Option<Segment>) -> Result<Many<Segment>, NoMemory>
    ensures docs { IfOk result (λ found. joined found ≡ joined segments ++ docs_of last) }
    ensures count { IfOk result (λ found. length found ≡ length segments + count_of last) }
{
    let mut found = segments;
    match last {
        None => Ok(found),
        Some(last) => {
            found.push(last)?;
            Ok(found)
        }
    }
}
