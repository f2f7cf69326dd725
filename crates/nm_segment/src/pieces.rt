//! Strings of bytes in one block: a `Segment` keeps its words so, and its runs of hits.

ghost use Rattle.std.specs.Prelude.{◌≡◌, ◌<◌, [], ◌∷◌, ◌++◌, length, slice_index_or, OnOk, OnErr};
ghost use Rattle.nm_segment.specs.Pieces.{AreEnds, IsSpan, pieces};

use nm_base::NoMemory;
use std::alloc::Global;
use std::marker::Model;

/// Strings of bytes, seen as the list of them. Each takes its bytes and the place at which it ends.
#[derive(Drop)]
pub struct Pieces {
    ends: Vec<usize>,
    block: Vec<u8>,
}

impl Model for Pieces {
    ghost use Rattle.std.specs.Prelude.{List, ℕ, length};
    ghost use Rattle.nm_segment.specs.Pieces.{pieces, AreEnds};

    ghost Value = { List (List ℕ) };

    ghost view = { λ p. pieces 0 p.ends.items p.block.items };

    ghost invariant = { λ p. AreEnds 0 p.ends.items (length p.block.items) };
}

impl Pieces {
    /// None, which take no memory.
    pub fn new(alloc: Global) -> Pieces
        ensures { result ≡ [] }
    {
        Pieces {
            ends: Vec::new(alloc),
            block: Vec::new(alloc),
        }
    }

    pub fn len(&self) -> usize
        ensures { result ≡ length self.now }
    {
        self.ends.len()
    }

    /// The piece at a place.
    pub fn get(&self, at: usize) -> &[u8]
        requires { at < length self.now }
        ensures { result.now ≡ slice_index_or self.now at [] }
    {
        piece_at(self.ends.as_slice(), self.block.as_slice(), at)
    }

    /// Adds a piece at the end.
    pub fn push(&mut self, piece: &[u8]) -> Result<(), NoMemory>
        ensures ok { OnOk result (self.new ≡ self.old ++ piece.now ∷ []) }
        ensures err { OnErr result (self.new ≡ self.old) }
    {
        self.ends.push(self.block.len() + piece.len())?;
        if self.block.extend_from_slice(piece).is_err() {
            self.ends.pop();
            return Err(NoMemory);
        }
        Ok(())
    }

    /// Gives back the memory that no piece fills.
    pub fn shrink_to_fit(&mut self)
        ensures { self.new ≡ self.old }
    {
        self.ends.shrink_to_fit();
        self.block.shrink_to_fit();
    }
}

fn piece_at<'a>(ends: &[usize], block: &'a [u8], at: usize) -> &'a [u8]
    requires within { at < length ends.now }
    requires ends { AreEnds 0 ends.now (length block.now) }
    ensures { result.now ≡ slice_index_or (pieces 0 ends.now block.now) at [] }
{
    let (start, end) = span_at(ends, block.len(), at);
    &block[start..end]
}

/// Where the piece at a place begins and ends.
fn span_at(ends: &[usize], len: usize, at: usize) -> (usize, usize)
    requires within { at < length ends.now }
    requires ends { AreEnds 0 ends.now len }
    ensures { IsSpan ends.now len at result.0 result.1 }
{
    let end = ends[at];
    match at.checked_sub(1) {
        None => (0, end),
        Some(before) => (ends[before], end),
    }
}
