//! The bytes of a record as they are written, which `nm_writer` makes before the disk is touched.

ghost use Rattle.std.specs.Prelude.{◌≡◌, ◌<◌, ◌^◌, ◌++◌, ◌∷◌, [], ℕ, List, IfOk, length};
ghost use Rattle.std.specs.List.{flat_map};
ghost use Rattle.nm_journal.specs.Frame.{framed};

use nm_base::{Many, NoMemory};
use std::alloc::Global;
use std::marker::Model;

/// The length of a body, the body, and the next closed gate.
#[derive(Drop)]
pub struct Frame {
    bytes: Many<u8>,
}

impl Model for Frame {
    ghost use Rattle.std.specs.Prelude.{◌≡◌, ◌<◌, ◌^◌, List, ℕ, length};
    ghost use Rattle.nm_journal.specs.Frame.{body_of, framed};

    ghost Value = { List ℕ };

    ghost view = { λ f. body_of f.bytes };

    ghost invariant = { λ f. (f.bytes ≡ framed (body_of f.bytes)) × (length (body_of f.bytes) < 2 ^ 32) };
}

impl Frame {
    /// The frame of a copy of a body.
    pub fn new(alloc: Global, body: &Many<u8>) -> Result<Frame, NoMemory>
        requires { length body.now < 2 ^ 32 }
        ensures { IfOk result (λ frame. frame ≡ body.now) }
    {
        Frame::of_pieces(alloc, body.len() as u32, body.as_slice(), &[])
    }

    /// The frame of a body of `len` bytes, given in pieces: its first bytes, and then all others.
    pub fn of_pieces(
        alloc: Global,
        len: u32,
        first: &[u8],
        others: &[Many<u8>],
    ) -> Result<Frame, NoMemory>
        requires { len ≡ length (first.now ++ flat_map (λ piece. piece) others.now) }
        ensures { IfOk result (λ frame. frame ≡ first.now ++ flat_map (λ piece. piece) others.now) }
    {
        let mut bytes = Vec::with_capacity(alloc, (len as usize).saturating_add(5))?;
        bytes.extend_from_slice(&len.to_be_bytes())?;
        bytes.extend_from_slice(first)?;
        'others: for piece in others {
            bytes.extend_from_slice(piece.as_slice())?;
        }
        bytes.push(0)?;
        Ok(Frame::of_bytes(Many::from_vec(bytes)))
    }

    /// The frame that these bytes are: the length of a body in four bytes, the body, and a closed gate.
    #[tactic(auto, using(crate::proofs::FrameLemmas::is_framed_body, crate::proofs::FrameLemmas::short_framed_body, crate::proofs::FrameLemmas::has_framed_body))]
    pub fn of_bytes(bytes: Many<u8>) -> Frame
        requires { (body : List ℕ) × (bytes ≡ framed body) × (length body < 2 ^ 32) }
        ensures { (body : List ℕ) → bytes ≡ framed body → result ≡ body }
    {
        Frame { bytes }
    }

    /// The body, and the closed gate after it.
    pub fn tail(&self) -> &[u8]
        ensures { result.now ≡ self.now ++ 0 ∷ [] }
    {
        &self.bytes.as_slice()[4..]
    }

    /// The length of the body.
    pub(crate) fn len(&self) -> u64
        ensures len { result ≡ length self.now }
        ensures fits { length self.now < 2 ^ 32 }
    {
        self.bytes.len() as u64 - 5
    }

    /// The length, the body and the closed gate.
    pub(crate) fn bytes(&self) -> &[u8]
        ensures bytes { result.now ≡ framed self.now }
        ensures length { length self.now < 2 ^ 32 }
    {
        self.bytes.as_slice()
    }
}
