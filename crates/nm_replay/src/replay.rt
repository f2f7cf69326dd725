//! The index that the bodies of records leave, one commit after the other: `head` replays them.

ghost use Rattle.std.specs.Prelude.{◌≡◌, IfErr, IfOk, List, None};
ghost use Rattle.std.specs.List.{AllZip};
ghost use Rattle.nm_commit.specs.Files.{Fits};
ghost use Rattle.nm_commit.specs.declared.change.Commit.{Commit};
ghost use Rattle.nm_model_index.specs.Index.{committed, empty_index};
ghost use Rattle.nm_record.specs.Room.{limit_passed};
ghost use Rattle.nm_replay.specs.OpenFaults.{HasBodyFault, IsAfterRead, IsOfHead, IsRead, IsRefusedCommit, IsRefusedRead, IsToldAt};
ghost use Rattle.nm_replay.specs.StoredIndex.{HasCommits, StayWithin};

use crate::OpenError;
use crate::next_index::next_snapshot;
use nm_base::SharedBytes;
use nm_commit::Commit;
use nm_disk::FileNo;
use nm_state::{RoomError, Snapshot};
use std::alloc::Global;
use std::thread::Threads;

/// The snapshot after the commits that the bodies encode, as these were read; none of them passes a limit. The first body
/// that fails decides.
pub(crate) fn replayed<R: Threads>(
    rt: &R,
    alloc: Global,
    workers: u32,
    bodies: &[SharedBytes],
    read: &[Option<Commit>],
) -> Result<Snapshot, OpenError>
    requires { AllZip IsRead bodies.now read.now }
    ensures ok { IfOk result (λ snapshot. (commits : List Commit) × HasCommits bodies.now commits snapshot × StayWithin empty_index commits) }
    ensures bad { IfErr result (HasBodyFault bodies.now) }
    ensures file { IfErr result IsOfHead }
{
    let mut snapshot = Snapshot::empty(alloc);
    let mut gate = 0u64;
    'bodies: for at in 0..read.len() {
        snapshot = replay_one(rt, workers, &snapshot, &read[at], gate)?;
        gate = gate
            .saturating_add(5)
            .saturating_add(bodies[at].as_slice().len() as u64);
    }
    Ok(snapshot)
}

/// The snapshot after a commit that was read. Where no commit was, that is reported at `gate`.
fn replay_one<R: Threads>(
    rt: &R,
    workers: u32,
    snapshot: &Snapshot,
    read: &Option<Commit>,
    gate: u64,
) -> Result<Snapshot, OpenError>
    ensures ok { IfOk result (IsAfterRead snapshot.now read.now) }
    ensures bad { IfErr result (IsRefusedRead snapshot.now read.now) }
    ensures file { IfErr result IsOfHead }
    ensures gate { IfErr result (IsToldAt gate) }
{
    match read {
        Some(commit) => apply_read(rt, workers, snapshot, commit, gate),
        None => Err(OpenError::BadIndex {
            file: FileNo::Head,
            at: gate,
        }),
    }
}

/// The snapshot after a commit, where it fits and passes no limit.
fn apply_read<R: Threads>(
    rt: &R,
    workers: u32,
    snapshot: &Snapshot,
    commit: &Commit,
    gate: u64,
) -> Result<Snapshot, OpenError>
    ensures ok { IfOk result (λ new. Fits snapshot.now.files commit.now × (new ≡ committed snapshot.now commit.now) × (limit_passed (committed snapshot.now commit.now) ≡ None)) }
    ensures bad { IfErr result (IsRefusedCommit snapshot.now commit.now) }
    ensures file { IfErr result IsOfHead }
    ensures gate { IfErr result (IsToldAt gate) }
{
    if !snapshot.fits(commit)? {
        return Err(OpenError::BadIndex {
            file: FileNo::Head,
            at: gate,
        });
    }
    match next_snapshot(rt, workers, snapshot, commit) {
        Ok(next) => Ok(next),
        Err(RoomError::Limit(limit)) => Err(OpenError::Limit(limit)),
        Err(RoomError::NoMemory) => Err(OpenError::NoMemory),
    }
}
