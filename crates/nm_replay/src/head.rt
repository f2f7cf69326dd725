//! The index that the head file holds, with the journal that it is kept in: `nm_writer` opens it so.

ghost use Rattle.std.specs.Prelude.{◌≡◌, ℕ, ◌<◌, ◌≤◌, List, false, IfErr, IfOk};
ghost use Rattle.nm_commit.specs.declared.change.Commit.{Commit};
ghost use Rattle.nm_disk.specs.Calls.{GoesOn};
ghost use Rattle.nm_disk.specs.CrashStates.{MayLeave};
ghost use Rattle.nm_disk.specs.Observed.{bytes_now};
ghost use Rattle.nm_faults.specs.Faults.{HasCauseOf};
ghost use Rattle.nm_model_index.specs.Index.{empty_index};
ghost use Rattle.nm_journal.specs.Journal.{StandsOn};
ghost use Rattle.nm_journal.specs.Moments.{GoesThrough, IsSynced, SyncsOrFails};
ghost use Rattle.nm_replay.specs.OpenFaults.{HasOpenFault, IsOfHead, is_disk_fault};
ghost use Rattle.nm_replay.specs.StoredIndex.{HasCommits, HoldsWithin, StayWithin};

use crate::OpenError;
use crate::bodies::{read_bodies, shared_bodies};
use crate::replay::replayed;
use nm_disk::{Disk, FileNo};
use nm_journal::Journal;
use nm_state::Snapshot;
use std::alloc::Global;
use std::sync::Wait;
use std::thread::Threads;

/// The journal of the head file, and the index that its records leave.
pub struct Replayed {
    pub journal: Journal,
    pub index: Snapshot,
}

/// Reads the index that the head file holds: a fresh disk holds the empty one. The disk is synced first. 1 to 16 workers read the
/// records; no clause knows how many they are.
pub fn replay_head<R: Threads + Wait + Sync, D: Disk>(
    rt: &R,
    alloc: Global,
    disk: &mut D,
    workers: u32,
) -> Result<Replayed, OpenError>
    requires workers { (0 < workers) × (workers ≤ 16) }
    // The index is that which a read gives, and no index on the way to it passes a limit.
    ensures index { GoesOn (λ old new. IfOk result (λ replayed. HoldsWithin (bytes_now old FileNo.Head) replayed.index))
        (D.observed disk.old).told (D.observed disk.new).told }

    // On any disk it is that after some commits, none of which passes a limit.
    ensures held { IfOk result (λ replayed. (bodies : List (List ℕ)) × (commits : List Commit) × HasCommits bodies commits replayed.index × StayWithin empty_index commits) }

    // And so it is whatever a crash leaves from then on.
    ensures stands { GoesOn (λ old new. IfOk result (λ replayed. (bodies : List (List ℕ)) × (commits : List Commit) × StandsOn new.present replayed.journal bodies × HasCommits bodies commits replayed.index))
        (D.observed disk.old).told (D.observed disk.new).told }

    ensures journal { IfOk result (λ replayed. (replayed.journal.file ≡ FileNo.Head) × (replayed.journal.start ≡ 0) × (replayed.journal.failed ≡ false)) }

    // A bad index is reported only where what a read gives is none, and then at the stated place; a limit only where an index on the
    // way passes it. The first record that fails decides.
    ensures bad { GoesOn (λ old new. IfErr result (HasOpenFault (bytes_now old FileNo.Head)))
        (D.observed disk.old).told (D.observed disk.new).told }

    // On any disk a bad index is reported of the head.
    ensures file { IfErr result IsOfHead }

    // The disk is synced once, and nothing is written; where the call fails that sync may have failed.
    ensures synced { GoesOn (λ old new. IfOk result (λ _. IsSynced old new)) (D.observed disk.old).told (D.observed disk.new).told }
    ensures syncs { GoesOn SyncsOrFails (D.observed disk.old).told (D.observed disk.new).told }

    // At every moment of the call a crash leaves only what it might have left before.
    ensures any_moment { GoesOn (λ old new. GoesThrough FileNo.Head (MayLeave old.present FileNo.Head) old new)
        (D.observed disk.old).told (D.observed disk.new).told }

    ensures cause { HasCauseOf is_disk_fault (D.observed disk.old).faults (D.observed disk.new).faults result }
{
    let (journal, bodies) = Journal::open(alloc, disk, FileNo::Head, 0)?;
    let shared = shared_bodies(alloc, bodies)?;
    let read = read_bodies(rt, alloc, workers, &shared)?;
    let index = replayed(rt, alloc, workers, shared.as_slice(), read.as_slice())?;
    Ok(Replayed { journal, index })
}
