//! Packing: hits as a block. `run_writer` writes one after the other.

ghost use Rattle.std.specs.Prelude.{◌≡◌, ◌≤◌, ◌<◌, ◌+◌, ◌*◌, ◌++◌, ◌∷◌, ℕ, List, length, IfOk, OnOk, OnErr, IsTrue};
ghost use Rattle.nm_blocks.specs.Hits.{all_fit, fits, is_rising};
ghost use Rattle.nm_blocks.specs.Blocks.{IsRun, block_bytes, hit_bytes, hits_bytes, origin};

use crate::draft::Draft;
use crate::hit::{Hit, ORIGIN, gaps_of};
use crate::number::put_number;
use nm_base::{Many, NoMemory};
use std::alloc::Global;

/// The most hits that a block has.
pub const MAX_HITS: usize = 128;

/// A block of 1 to 128 hits.
pub fn pack(alloc: Global, hits: &[Hit]) -> Result<Many<u8>, NoMemory>
    requires some { 0 < length hits.now }
    requires few { length hits.now ≤ 128 }
    requires rising { IsTrue (is_rising hits.now) }
    ensures bytes { IfOk result (λ block. block ≡ block_bytes hits.now) }
    ensures run { IfOk result (λ block. IsRun block hits.now) }
{
    let mut block = Many::new(alloc);
    pack_into(&mut block, hits)?;
    Ok(block)
}

/// Adds a block of 1 to 128 hits to bytes.
pub fn pack_into(bytes: &mut Many<u8>, hits: &[Hit]) -> Result<(), NoMemory>
    requires some { 0 < length hits.now }
    requires few { length hits.now ≤ 128 }
    requires rising { IsTrue (is_rising hits.now) }
    ensures ok { OnOk result (bytes.new ≡ bytes.old ++ block_bytes hits.now) }
    ensures run { IsRun (block_bytes hits.now) hits.now }
    ensures err { OnErr result (bytes.new ≡ bytes.old) }
{
    let mut draft = Draft::new();
    draft.push(hits.len() as u8);
    put_hits(&mut draft, hits);
    bytes.extend_from_slice(draft.as_slice())
}

/// Adds rising hits to bytes, as blocks of 128 hits and one of those that are left over.
pub fn pack_run(bytes: &mut Many<u8>, hits: &[Hit]) -> Result<(), NoMemory>
    requires { IsTrue (is_rising hits.now) }
    ensures ok { OnOk result ((run : List ℕ) × (bytes.new ≡ bytes.old ++ run) × IsRun run hits.now) }

    // The blocks that were added before memory ran out stay.
    ensures err { OnErr result ((run : List ℕ) × (bytes.new ≡ bytes.old ++ run)) }
{
    let mut rest = hits;
    'whole: while rest.len() > MAX_HITS {
        let (block, after) = rest.split_at(MAX_HITS);
        pack_into(bytes, block)?;
        rest = after;
    }
    if rest.is_empty() {
        return Ok(());
    }
    pack_into(bytes, rest)
}

fn put_hits(draft: &mut Draft, hits: &[Hit])
    requires { length draft.old + 16 * length hits.now ≤ 2049 }
    ensures bytes { draft.new ≡ draft.old ++ hits_bytes origin hits.now }
    ensures fit { IsTrue (all_fit hits.now) }
{
    let mut before = ORIGIN;
    'hits: for hit in hits {
        put_hit(draft, before, *hit);
        before = *hit;
    }
}

#[tactic(auto, using(crate::proofs::NumberLemmas::short_numbers))]
fn put_hit(draft: &mut Draft, before: Hit, hit: Hit)
    requires { length draft.old + 16 ≤ 2049 }
    ensures bytes { draft.new ≡ draft.old ++ hit_bytes before hit }
    ensures fits { IsTrue (fits hit) }
{
    let gaps = gaps_of(before, hit);
    put_number(draft, gaps.doc);
    put_number(draft, gaps.list);
    put_number(draft, gaps.place);
}
