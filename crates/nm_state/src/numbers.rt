//! Whether there are numbers for a commit, for `snapshot`.

ghost use Rattle.std.specs.Prelude.{◌≡◌, ◌≤◌, ◌+◌, ◌^◌, ◌↔◌, IsTrue, min};
ghost use Rattle.nm_base.specs.Limits.{max_count};
ghost use Rattle.nm_model_index.specs.Fits.{ids_named, named_ids};
ghost use Rattle.nm_model_index.specs.Index.{committed};
ghost use Rattle.nm_parts.specs.Parts.{base_of};

use nm_commit::{Change, Commit};
use nm_model_index::numbers_rise_with_the_ids_named;
use nm_parts::Parts;

/// Says whether there is a number for each id that the commit names, whether it has one or not.
pub fn has_ids(parts: &Parts, commit: &Commit) -> bool
    ensures exact { IsTrue result ↔ ((base_of parts.now).next + ids_named commit.now.changes ≤ 2 ^ 63) }
    ensures enough { IsTrue result → (committed (base_of parts.now) commit.now).next ≤ 2 ^ 63 }
{
    numbers_rise_with_the_ids_named();
    let left = (1 << 63) - parts.labels.next();
    ids_named(commit.changes.as_slice()) <= left
}

/// How many ids the changes name, as far as a number can count it.
fn ids_named(changes: &[Change]) -> u64
    ensures { result ≡ min (ids_named changes.now) max_count }
{
    let mut count = 0u64;
    'changes: for change in changes {
        count = count.saturating_add(named_ids(change));
    }
    count
}

fn named_ids(change: &Change) -> u64
    ensures { result ≡ min (named_ids change.now) max_count }
{
    match change {
        Change::Add { facts, .. } => (facts.get().links.len() as u64).saturating_add(1),
        Change::Drop { .. } | Change::Move { .. } | Change::SetTags { .. } => 0,
    }
}
