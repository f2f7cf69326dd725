//! Unpacking: the hits of blocks that come one after the other. `nm_segment` answers what is asked of a word so.

ghost use Rattle.std.specs.Prelude.{◌≡◌, ◌∷◌, [], List, MatchOption};
ghost use Rattle.nm_blocks.specs.declared.hit.Hit.{Hit};
ghost use Rattle.nm_blocks.specs.Blocks.{IsRun, hit_at, run_hits};

use crate::hit::{Hit, ORIGIN, hit_after};
use crate::number::take_number;
use std::marker::Model;

/// Reads blocks, hit by hit, seen as the hits that are left.
#[derive(Drop)]
pub struct Unpack<'a> {
    left: u8,
    before: Hit,
    rest: &'a [u8],
}

impl<'a> Model for Unpack<'a> {
    ghost use Rattle.std.specs.Prelude.{List};
    ghost use Rattle.nm_blocks.specs.declared.hit.Hit.{Hit};
    ghost use Rattle.nm_blocks.specs.Blocks.{hits_left};

    ghost Value = { List Hit };

    ghost view = { λ u. hits_left u.left u.before u.rest.now };
}

impl<'a> Unpack<'a> {
    /// A reader of blocks that come one after the other. Bytes that are no whole blocks are read as some hits.
    pub fn new(bytes: &'a [u8]) -> Unpack<'a>
        ensures run { (hits : List Hit) → IsRun bytes.now hits → result ≡ hits }
        ensures bytes { result ≡ run_hits bytes.now }
    {
        Unpack::at_block(bytes)
    }

    /// The next hit, in constant time.
    #[tactic(auto, using(crate::proofs::ReadLemmas::blocks))]
    pub fn next(&mut self) -> Option<Hit>
        ensures { MatchOption result ((self.old ≡ []) × (self.new ≡ [])) (λ hit. self.old ≡ hit ∷ self.new) }
    {
        if self.left == 0 {
            return None;
        }
        let (hit, rest) = take_hit(self.before, self.rest);
        if self.left == 1 {
            *self = Unpack::at_block(rest);
            return Some(hit);
        }
        self.left -= 1;
        self.before = hit;
        self.rest = rest;
        Some(hit)
    }

    // The reader at the count of a block, or at the end.
    #[tactic(auto, using(crate::proofs::ReadLemmas::blocks))]
    fn at_block(bytes: &'a [u8]) -> Unpack<'a>
        ensures { result ≡ run_hits bytes.now }
    {
        match bytes.split_first() {
            None => Unpack {
                left: 0,
                before: ORIGIN,
                rest: bytes,
            },
            Some((count, rest)) => Unpack {
                left: *count,
                before: ORIGIN,
                rest,
            },
        }
    }
}

#[tactic(auto, unfolding(crate::specs::Blocks::hit_at))]
fn take_hit(before: Hit, bytes: &[u8]) -> (Hit, &[u8])
    ensures hit { result.0 ≡ (hit_at before bytes.now).0 }
    ensures rest { result.1.now ≡ (hit_at before bytes.now).1 }
{
    let (doc, bytes) = take_number(bytes);
    let (list, bytes) = take_number(bytes);
    let (place, bytes) = take_number(bytes);
    (hit_after(before, Hit { doc, list, place }), bytes)
}
