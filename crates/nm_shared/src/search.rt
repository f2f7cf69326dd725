//! Where a key is among blocks of pairs: `part` asks it for each look-up, and `room` for a new pair; `shared_map` looks for a part in the same way.

ghost use Rattle.std.specs.Prelude.{◌≡◌, ◌≢◌, ◌-◌, ◌<◌, ◌≤◌, true, false, length, slice_index_or};
ghost use Rattle.std.specs.declared.cmp.Ordering.TheVariants.{Equal, Greater};
ghost use Rattle.std.specs.List.Sorted.{IsStrictlySortedBy};
ghost use Rattle.std.specs.Map.{keys_of};
ghost use Rattle.nm_shared.specs.Runs.{flat, HaveItems};
ghost use Rattle.nm_shared.specs.Search.{IsRunOf, IsPlaceOf};
ghost use Rattle.nm_shared.specs.Spot.{IsSpotOf};

use crate::run::Run;
use std::cmp::Ordering;

/// Where a key is among runs of pairs, or would be.
#[derive(Clone, Copy)]
pub struct Spot {
    pub run: usize,
    pub at: usize,
    pub found: bool,
}

/// A block of pairs that is full has two to this power, where keys rise.
const RUN_BITS: u32 = 6;

/// How many runs begin with a key that is not above `key`.
pub fn run_of<K: Ord, V, S: Seek<K>>(runs: &[Run<(K, V)>], key: &K, seek: &S) -> usize
    requires { HaveItems runs.now }
    ensures { IsRunOf K.cmp key.now runs.now result }
{
    let Some(first) = runs.first() else {
        return 0;
    };
    let mut probe = Probe {
        at: seek.guess(&first.as_slice()[0].0, key, runs.len(), RUN_BITS),
        is_guess: true,
    };
    let mut low = 0;
    let mut high = runs.len();
    'runs: while low < high {
        let at = probe.at.max(low).min(high - 1);
        let is_above = key.cmp(&runs[at].as_slice()[0].0) == Ordering::Less;
        if is_above {
            high = at;
        } else {
            low = at + 1;
        }
        probe = probe.next(low, high, is_above);
    }
    low
}

/// Where a search among blocks looks next.
#[derive(Clone, Copy)]
pub struct Probe {
    pub at: usize,
    /// Whether this is the guess that it begins with.
    pub is_guess: bool,
}

impl Probe {
    /// A guess is followed by the block beside it, since most guesses are right; then the rest is halved.
    pub fn next(self, low: usize, high: usize, is_above: bool) -> Probe {
        let at = if !self.is_guess {
            low.saturating_add(high.saturating_sub(low) / 2)
        } else if is_above {
            high.saturating_sub(1)
        } else {
            low
        };
        Probe {
            at,
            is_guess: false,
        }
    }
}

/// A way to find a key among blocks and in a run. All find the same place, at different costs.
pub trait Seek<K: Ord> {
    /// At which of n blocks to look first, whose first key is `first`. A full block has two to the power of `bits` items.
    fn guess(&self, first: &K, key: &K, blocks: usize, bits: u32) -> usize;

    /// How many keys of the run are below `key`.
    fn place_of<V>(&self, items: &[(K, V)], key: &K) -> usize
        ensures { IsPlaceOf K.cmp key.now items.now result };
}

/// By halves.
pub struct Halves;

impl<K: Ord> Seek<K> for Halves {
    fn guess(&self, _first: &K, _key: &K, blocks: usize, _bits: u32) -> usize {
        blocks
    }

    fn place_of<V>(&self, items: &[(K, V)], key: &K) -> usize {
        place_between(items, key, 0, items.len())
    }
}

/// At the end first, where keys that rise come, and then by halves.
pub struct AtEnd;

impl<K: Ord> Seek<K> for AtEnd {
    fn guess(&self, _first: &K, _key: &K, blocks: usize, _bits: u32) -> usize {
        blocks
    }

    fn place_of<V>(&self, items: &[(K, V)], key: &K) -> usize {
        let len = items.len();
        if len > 0 && key.cmp(&items[len - 1].0) == Ordering::Greater {
            return len;
        }
        place_between(items, key, 0, len)
    }
}

/// By guesses, of numbers of which n of 2^64 are keys, or about n: of hashes as many as the map has, of numbers that follow
/// one another all. What a guess costs is time alone.
#[derive(Drop)]
pub struct Guesses {
    pub keys: u64,
}

/// This many guesses are made before the rest is halved, so that keys that are spread unevenly cost little more than by
/// halves.
const MAX_GUESSES: u32 = 12;

impl Guesses {
    /// How many keys are within such a distance.
    fn within(&self, distance: u64) -> usize {
        (u128::from(distance).wrapping_mul(u128::from(self.keys)) >> 64) as usize
    }
}

impl Seek<u64> for Guesses {
    fn guess(&self, first: &u64, key: &u64, blocks: usize, bits: u32) -> usize {
        if self.keys == u64::MAX {
            return key.saturating_sub(*first).checked_shr(bits).unwrap_or(0) as usize;
        }
        (u128::from(*key).wrapping_mul(blocks as u128) >> 64) as usize
    }

    fn place_of<V>(&self, items: &[(u64, V)], key: &u64) -> usize {
        let mut low = 0;
        let mut high = items.len();
        let mut guess = 0;
        'guesses: for _ in 0..MAX_GUESSES {
            if low >= high {
                return low;
            }
            let at = high.saturating_sub(1).min(low.max(guess));
            let found = items[at].0;
            let count = self.within(key.abs_diff(found));
            match key.cmp(&found) {
                Ordering::Greater => {
                    low = at + 1;
                    guess = low.saturating_add(count);
                }
                _ => {
                    high = at;
                    guess = high.saturating_sub(count.saturating_add(1));
                }
            }
        }
        place_between(items, key, low, high)
    }
}

/// How many keys of a run are below `key`, where as many as `low` are and at most `high`.
pub fn place_between<K: Ord, V>(items: &[(K, V)], key: &K, low: usize, high: usize) -> usize
    requires order { low ≤ high }
    requires within { high ≤ length items.now }
    requires before { (entry : K × V) → 0 < low → K.cmp key.now (slice_index_or items.now (low - 1) entry).0 ≡ Greater }
    requires after { (entry : K × V) → high < length items.now → K.cmp key.now (slice_index_or items.now high entry).0 ≢ Greater }
    ensures { IsPlaceOf K.cmp key.now items.now result }
{
    let mut low = low;
    let mut high = high;
    'halves: while low < high {
        let middle = low + (high - low) / 2;
        match key.cmp(&items[middle].0) {
            Ordering::Greater => low = middle + 1,
            _ => high = middle,
        }
    }
    low
}

pub fn spot_of<K: Ord, V, S: Seek<K>>(runs: &[Run<(K, V)>], key: &K, seek: &S) -> Spot
    requires filled { HaveItems runs.now }
    requires sorted { IsStrictlySortedBy K.cmp (keys_of (flat runs.now)) }
    ensures { IsSpotOf K.cmp key.now runs.now result }
{
    let run = run_of(runs, key, seek).saturating_sub(1);
    let Some(chosen) = runs.get(run) else {
        return Spot {
            run,
            at: 0,
            found: false,
        };
    };
    let items = chosen.as_slice();
    let at = seek.place_of(items, key);
    let found = is_key_at(items, at, key);
    Spot { run, at, found }
}

fn is_key_at<K: Ord, V>(items: &[(K, V)], at: usize, key: &K) -> bool
    ensures found { result ≡ true → (at < length items.now) × ((entry : K × V) → K.cmp key.now (slice_index_or items.now at entry).0 ≡ Equal) }
    ensures missing { result ≡ false → at < length items.now → (entry : K × V) → K.cmp key.now (slice_index_or items.now at entry).0 ≢ Equal }
{
    match items.get(at) {
        None => false,
        Some(entry) => key.cmp(&entry.0) == Ordering::Equal,
    }
}
