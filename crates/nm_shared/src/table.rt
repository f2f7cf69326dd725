//! Where hashes begin in a long run of pairs: `long` finds a hash by it, with one or two reads of far memory.

use crate::search::{Seek, place_between};
use nm_base::NoMemory;
use std::alloc::Global;
use std::cmp::Ordering;

/// About this many pairs have one entry, or up to twice as many.
const PAIRS_PER_START: u64 = 4;

/// This many pairs are looked at one by one before the rest is halved.
const MAX_STEPS: u32 = 16;

/// How many pairs come before those whose hashes begin with the same bits, for all values of these bits in order. What it
/// tells is tried as a guess is, so a wrong number costs time alone.
#[derive(Drop)]
pub struct Table {
    starts: Vec<u32>,
    /// A hash that is moved down by n bits leaves the bits that count here.
    shift: u32,
}

impl Table {
    /// A table for n pairs, of which none has been noted.
    pub fn new(alloc: Global, len: usize) -> Table {
        Table {
            starts: Vec::new(alloc),
            shift: (len as u64 / PAIRS_PER_START)
                .leading_zeros()
                .saturating_add(1),
        }
    }

    fn bits(&self, hash: u64) -> usize {
        hash.checked_shr(self.shift).unwrap_or(0) as usize
    }

    /// Notes the pair with this hash, which is above those of all `before`.
    pub fn note(&mut self, hash: u64, before: usize) -> Result<(), NoMemory> {
        let before = u32::try_from(before).unwrap_or(u32::MAX);
        let wanted = self.bits(hash).saturating_add(1);
        for _ in 0..wanted.saturating_sub(self.starts.len()) {
            self.starts.push(before)?;
        }
        Ok(())
    }

    /// How many pairs come before those that begin as the hash does.
    fn start(&self, hash: u64) -> usize {
        match self.starts.get(self.bits(hash)) {
            Some(start) => *start as usize,
            None => usize::MAX,
        }
    }
}

impl Seek<u64> for Table {
    /// The pairs are in one block.
    fn guess(&self, _first: &u64, _key: &u64, blocks: usize, _bits: u32) -> usize {
        blocks
    }

    fn place_of<V>(&self, items: &[(u64, V)], key: &u64) -> usize {
        let mut low = 0;
        let mut high = items.len();
        let mut next = self.start(*key);
        'steps: for _ in 0..MAX_STEPS {
            if low >= high {
                return low;
            }
            let at = next.max(low).min(high.saturating_sub(1));
            match key.cmp(&items[at].0) {
                Ordering::Greater => {
                    low = at + 1;
                    next = low;
                }
                _ => {
                    high = at;
                    next = high.saturating_sub(1);
                }
            }
        }
        place_between(items, key, low, high)
    }
}
