//! A segment as a part of a merged one: its documents that live, and their hits. `merged_segment` and `merged_index` put two together.

ghost use Rattle.std.specs.Prelude.{◌≡◌, ◌<◌, ◌++◌, [], ℕ, List, length, slice_index_or, IfOk, OnOk, true};
ghost use Rattle.std.specs.List.{list_any};
ghost use Rattle.nm_blocks.specs.Blocks.{IsRun, run_hits};
ghost use Rattle.nm_blocks.specs.Hits.{is_rising};
ghost use Rattle.nm_base.specs.Order.{has_text};
ghost use Rattle.nm_segment.specs.Docs.{AreDocs, hits_of, words};
ghost use Rattle.nm_segment.specs.Merge.{IsPlace, IsWithin, docs_of_part, lives, living, living_hits};

use crate::doc_words::DocWords;
use crate::fields::field_at;
use crate::live_docs::LiveDocs;
use crate::segment::Segment;
use nm_base::{Copies, Field, Many, NoMemory};
use nm_blocks::{RunWriter, Unpack};
use std::alloc::Global;

/// A segment, and which of its documents live, where not all of them do.
#[derive(Drop)]
pub struct Part<'a> {
    pub segment: &'a Segment,
    pub live: Option<&'a LiveDocs>,
}

impl<'a> Part<'a> {
    /// The part of a segment. Its documents that live are added to `docs`.
    pub fn new(
        segment: &'a Segment,
        live: &'a LiveDocs,
        docs: &mut Many<DocWords>,
    ) -> Result<Part<'a>, NoMemory>
        ensures segment { IfOk result (λ part. part.segment.now ≡ segment.now) }
        ensures living { IfOk result (λ part. docs_of_part part ≡ living live.now segment.now) }
        ensures given { OnOk result (AreDocs segment.now) }
        ensures docs { OnOk result (docs.new ≡ docs.old ++ living live.now segment.now) }
    {
        let mut is_whole = true;
        'docs: for doc in segment.docs() {
            if live.has(doc.doc) {
                docs.push(doc.copy()?)?;
            } else {
                is_whole = false;
            }
        }
        Ok(Part {
            segment,
            live: if is_whole { None } else { Some(live) },
        })
    }

    /// The whole segment as a part. Its documents are added to `docs`.
    pub fn whole(segment: &'a Segment, docs: &mut Many<DocWords>) -> Result<Part<'a>, NoMemory>
        ensures segment { IfOk result (λ part. part.segment.now ≡ segment.now) }
        ensures all { IfOk result (λ part. docs_of_part part ≡ segment.now) }
        ensures given { OnOk result (AreDocs segment.now) }
        ensures docs { OnOk result (docs.new ≡ docs.old ++ segment.now) }
    {
        'docs: for doc in segment.docs() {
            docs.push(doc.copy()?)?;
        }
        Ok(Part {
            segment,
            live: None,
        })
    }

    /// Whether the part has a hit of the word that the segment has at this place.
    pub fn has(&self, at: Option<usize>) -> bool
        requires { IsWithin (words self.now.segment.now) at }
        ensures { (word : List ℕ) → IsPlace (words self.now.segment.now) word at → result ≡ has_text (words (docs_of_part self.now)) word }
    {
        match at {
            None => false,
            Some(at) => match self.live {
                None => true,
                Some(live) => has_live_hit(self.segment, at, live),
            },
        }
    }

    /// Adds the run of the part's hits in a field of the word that the segment has at this place.
    pub fn add_run(
        &self,
        alloc: Global,
        at: Option<usize>,
        field: Field,
        bytes: &mut Many<u8>,
    ) -> Result<(), NoMemory>
        requires { IsWithin (words self.now.segment.now) at }
        ensures { OnOk result ((word : List ℕ) → IsPlace (words self.now.segment.now) word at → (run : List ℕ) × (bytes.new ≡ bytes.old ++ run) × IsRun run (hits_of (docs_of_part self.now) word field)) }
    {
        match at {
            None => Ok(()),
            Some(at) => {
                let run = self.segment.run(at, field);
                match self.live {
                    None => bytes.extend_from_slice(run),
                    Some(live) => add_live_hits(alloc, run, live, bytes),
                }
            }
        }
    }
}

/// Whether the word at a place has a hit in a document that lives.
fn has_live_hit(segment: &Segment, at: usize, live: &LiveDocs) -> bool
    requires { at < length (words segment.now) }
    ensures { result ≡ has_text (words (living live.now segment.now)) (slice_index_or (words segment.now) at []) }
{
    'fields: for number in 0..5_usize {
        if is_live_run(segment.run(at, field_at(number)), live) {
            return true;
        }
    }
    false
}

/// Whether a hit of a run is in a document that lives.
fn is_live_run(run: &[u8], live: &LiveDocs) -> bool
    ensures { result ≡ list_any (λ hit. lives live.now hit.doc) (run_hits run.now) }
{
    let mut hits = Unpack::new(run);
    'hits: while let Some(hit) = hits.next() {
        if live.has(hit.doc) {
            return true;
        }
    }
    false
}

/// Adds the run of the hits that are in documents that live.
fn add_live_hits(
    alloc: Global,
    run: &[u8],
    live: &LiveDocs,
    bytes: &mut Many<u8>,
) -> Result<(), NoMemory>
    requires { is_rising (living_hits live.now (run_hits run.now)) ≡ true }
    ensures { OnOk result ((added : List ℕ) × (bytes.new ≡ bytes.old ++ added) × IsRun added (living_hits live.now (run_hits run.now))) }
{
    let mut writer = RunWriter::new(alloc);
    let mut hits = Unpack::new(run);
    'hits: while let Some(hit) = hits.next() {
        if live.has(hit.doc) {
            writer.push(hit)?;
        }
    }
    writer.add_to(bytes)
}
