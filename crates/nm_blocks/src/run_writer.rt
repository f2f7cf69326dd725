//! A run that grows hit by hit: whole blocks, and the hits that wait for their block. `nm_segment` gathers the hits of
//! each word in one.

ghost use Rattle.std.specs.Prelude.{◌≡◌, ◌<◌, ◌∷◌, [], ◌++◌, ℕ, List, length, IsTrue, OnErr, OnOk};
ghost use Rattle.nm_blocks.specs.Blocks.{IsRun, run_hits};
ghost use Rattle.nm_blocks.specs.RunWriter.{IsWriting};
ghost use Rattle.nm_blocks.specs.Hits.{is_rising};

use crate::block::{MAX_HITS, pack_into, pack_run};
use crate::hit::Hit;
use nm_base::{Many, NoMemory};
use std::alloc::Global;
use std::marker::Model;

/// Rising hits, seen as the list of them. A hit takes 12 bytes until its block is full.
#[derive(Drop)]
pub struct RunWriter {
    blocks: Many<u8>,
    waiting: Vec<Hit>,
}

impl Model for RunWriter {
    ghost use Rattle.std.specs.Prelude.{List, ◌++◌};
    ghost use Rattle.nm_blocks.specs.Blocks.{run_hits};
    ghost use Rattle.nm_blocks.specs.RunWriter.{IsWriting};
    ghost use Rattle.nm_blocks.specs.declared.hit.Hit.{Hit};

    ghost Value = { List Hit };

    ghost view = { λ w. run_hits w.blocks ++ w.waiting.items };

    ghost invariant = { λ w. IsWriting w.blocks w.waiting.items };
}

impl RunWriter {
    /// No hits, which take no memory.
    pub fn new(alloc: Global) -> RunWriter
        ensures { result ≡ [] }
    {
        RunWriter {
            blocks: Many::new(alloc),
            waiting: Vec::new(alloc),
        }
    }

    /// Adds a hit after the others.
    pub fn push(&mut self, hit: Hit) -> Result<(), NoMemory>
        requires { IsTrue (is_rising (self.old ++ hit ∷ [])) }
        ensures ok { OnOk result (self.new ≡ self.old ++ hit ∷ []) }
        ensures err { OnErr result (self.new ≡ self.old) }
    {
        close_full_block(&mut self.blocks, &mut self.waiting)?;
        self.waiting.push(hit)?;
        Ok(())
    }

    /// Adds the run of these hits to bytes.
    pub fn add_to(&self, bytes: &mut Many<u8>) -> Result<(), NoMemory>
        ensures { OnOk result ((run : List ℕ) × (bytes.new ≡ bytes.old ++ run) × IsRun run self.now) }
    {
        bytes.extend_from_slice(self.blocks.as_slice())?;
        pack_run(bytes, self.waiting.as_slice())
    }
}

/// Packs the hits that wait, where they fill a block.
fn close_full_block(blocks: &mut Many<u8>, waiting: &mut Vec<Hit>) -> Result<(), NoMemory>
    requires { IsWriting blocks.old waiting.old.items }
    ensures writing { IsWriting blocks.new waiting.new.items }
    ensures hits { run_hits blocks.new ++ waiting.new.items ≡ run_hits blocks.old ++ waiting.old.items }
    ensures room { OnOk result (length waiting.new.items < 128) }
{
    if waiting.len() < MAX_HITS {
        return Ok(());
    }
    pack_into(blocks, waiting.as_slice())?;
    waiting.clear();
    Ok(())
}
