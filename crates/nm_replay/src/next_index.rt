//! The snapshot after a commit: `replay` and `nm_writer` have it made. Where two workers or more may be used, two threads make a
//! part each.

ghost use Rattle.std.specs.Prelude.{◌≡◌, ◌≤◌, ◌<◌, ◌^◌, IfOk, OnOk, Err, Some, None};
ghost use Rattle.nm_base.specs.declared.limit.Limit.{Limit};
ghost use Rattle.nm_commit.specs.Files.{Fits};
ghost use Rattle.nm_model_index.specs.Index.{committed};
ghost use Rattle.nm_record.specs.Room.{limit_passed};

use nm_base::NoMemory;
use nm_commit::Commit;
use nm_state::{RoomError, Snapshot};
use std::thread::Threads;

/// The snapshot after a commit, or the first limit that it would pass.
pub fn next_snapshot<R: Threads>(
    rt: &R,
    workers: u32,
    shown: &Snapshot,
    commit: &Commit,
) -> Result<Snapshot, RoomError>
    requires fits { Fits shown.now.files commit.now }
    ensures next { IfOk result (λ next. next ≡ committed shown.now commit.now) }
    ensures within { OnOk result (limit_passed (committed shown.now commit.now) ≡ None) }
    ensures limit { (limit : Limit) → result ≡ Err (RoomError.Limit limit) → limit_passed (committed shown.now commit.now) ≡ Some limit }
{
    if !shown.has_numbers(commit) {
        return shown.apply_within_limits(commit);
    }
    let next = with_numbers(rt, workers, shown, commit)?;
    match next.limit_passed() {
        None => Ok(next),
        Some(limit) => Err(RoomError::Limit(limit)),
    }
}

/// The snapshot after a commit that fits, where there are numbers for it.
fn with_numbers<R: Threads>(
    rt: &R,
    workers: u32,
    shown: &Snapshot,
    commit: &Commit,
) -> Result<Snapshot, NoMemory>
    requires fits { Fits shown.now.files commit.now }
    requires numbers { (committed shown.now commit.now).next ≤ 2 ^ 63 }
    requires revision { shown.now.revision < 2 ^ 63 }
    ensures { IfOk result (λ next. next ≡ committed shown.now commit.now) }
{
    if workers < 2 {
        return shown.apply(commit);
    }
    shown.apply_by_two(rt, commit)
}
