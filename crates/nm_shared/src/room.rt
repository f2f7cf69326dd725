//! Room for a pair in the run that it goes into, for `insert` of `part`.

ghost use Rattle.std.specs.Prelude.{◌≡◌};
ghost use Rattle.std.specs.List.Sorted.{IsStrictlySortedBy};
ghost use Rattle.std.specs.Map.{keys_of};
ghost use Rattle.nm_shared.specs.Runs.{flat, HaveItems};
ghost use Rattle.nm_shared.specs.Spot.{IsSpotOf};

use crate::run::Run;
use crate::runs::{MAX_RUN, cut_run};
use crate::search::{AtEnd, Spot, spot_of};
use nm_base::Copies;

/// Where a key is, or would be; its run is cut before, if it is full. Without memory for that the run grows.
pub fn spot_with_room<K: Ord + Copies, V: Copies>(runs: &mut Vec<Run<(K, V)>>, key: &K) -> Spot
    requires filled { HaveItems runs.old.items }
    requires sorted { IsStrictlySortedBy K.cmp (keys_of (flat runs.old.items)) }
    ensures items { flat runs.new.items ≡ flat runs.old.items }
    ensures filled { HaveItems runs.new.items }
    ensures spot { IsSpotOf K.cmp key.now runs.new.items result }
{
    let spot = spot_of(runs.as_slice(), key, &AtEnd);
    if spot.found || !is_full(runs.as_slice(), spot.run) {
        return spot;
    }
    let _ = cut_run(runs, spot.run);
    spot_of(runs.as_slice(), key, &AtEnd)
}

fn is_full<T>(runs: &[Run<T>], at: usize) -> bool {
    match runs.get(at) {
        None => false,
        Some(run) => run.len() >= MAX_RUN,
    }
}
