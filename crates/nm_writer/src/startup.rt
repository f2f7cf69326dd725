//! Opening the index that a disk holds, for `nm_session`: a writer, and readers that see what it shows.

ghost use Rattle.std.specs.Prelude.{◌≡◌, ◌<◌, ◌≤◌, [], IfErr, IfOk, IfSome, None, replicate};
ghost use Rattle.nm_base.specs.Limits.{max_count};
ghost use Rattle.nm_disk.specs.Calls.{GoesOn};
ghost use Rattle.nm_disk.specs.CrashStates.{MayLeave};
ghost use Rattle.nm_disk.specs.Observed.{bytes_now};
ghost use Rattle.nm_faults.specs.Faults.{HasCauseOf};
ghost use Rattle.nm_journal.specs.Moments.{GoesThrough, IsSynced, SyncsOrFails};
ghost use Rattle.nm_publish.specs.Published.{index_of};
ghost use Rattle.nm_writer.specs.Durable.{IsDurable};
ghost use Rattle.nm_replay.specs.OpenFaults.{HasOpenFault, IsOfHead, is_disk_fault};
ghost use Rattle.nm_replay.specs.StoredIndex.{HoldsWithin};
ghost use Rattle.nm_writer.specs.Writer.{StandsOnIndex};

use crate::Writer;
use nm_base::{Many, NoMemory, Room};
use nm_disk::{Disk, FileNo};
use nm_journal::a_sync_leaves_nothing_new;
use nm_model_plan::{files_stay_apart, numbers_stay_in_order};
use nm_publish::{Reader, Started, start};
use nm_replay::{OpenError, Replayed, replay_head};
use nm_state::Snapshot;
use std::alloc::Global;
use std::sync::{Arc, Wait};
use std::thread::Threads;

/// Who writes, and who reads.
pub struct Opened {
    pub writer: Writer,
    pub readers: Many<Reader>,
}

impl Writer {
    /// Opens the index that the head file holds, for n readers: a fresh disk holds the empty one. The disk is synced first. 1 to
    /// 16 workers read the records; no clause knows how many they are.
    pub fn open<R: Threads + Wait + Sync, D: Disk>(
        rt: &R,
        alloc: Global,
        disk: &mut D,
        readers: u32,
        workers: u32,
    ) -> Result<Opened, OpenError>
        requires workers { (0 < workers) × (workers ≤ 16) }
        // The index shown is that which a read gives, and no index on the way to it passes a limit.
        ensures index { GoesOn (λ old new. IfOk result (λ opened. HoldsWithin (bytes_now old FileNo.Head) opened.writer.shown))
            (D.observed disk.old).told (D.observed disk.new).told }

        // And so it is whatever a crash leaves from then on.
        ensures stands { GoesOn (λ old new. IfOk result (λ opened. StandsOnIndex new.present opened.writer))
            (D.observed disk.old).told (D.observed disk.new).told }

        // What will be acknowledged is never lost, from the end of the call on; and from its entry on, where no write was
        // pending there.
        ensures durable { IfOk result (λ opened. IsDurable (D.observed disk.new) opened.writer.shown (D.observed disk.new) opened.writer) }
        ensures durable_from_entry { IfSome (D.observed disk.old).told (λ moments. moments.present.written ≡ [])
            → IfOk result (λ opened. IsDurable (D.observed disk.old) opened.writer.shown (D.observed disk.new) opened.writer) }

        ensures fresh { IfOk result (λ opened. (opened.writer.begun ≡ []) × (opened.writer.acked ≡ []) × (opened.writer.closed ≡ None)) }

        // The index shown is published, and no commit yet; there are as many readers as were asked for, and each has seen it.
        ensures published { IfOk result (λ opened. (opened.writer.published.opening ≡ opened.writer.shown) × (opened.writer.published.commits ≡ [])) }
        ensures readers { IfOk result (λ opened. opened.readers ≡ replicate readers opened.writer.published) }

        // A bad index is reported only where what a read gives is none, and then at the stated place; a limit only where an index on the
        // way passes it. The first record that fails decides.
        ensures bad { GoesOn (λ old new. IfErr result (HasOpenFault (bytes_now old FileNo.Head)))
            (D.observed disk.old).told (D.observed disk.new).told }

        // On any disk a bad index is reported of the head.
        ensures file { IfErr result IsOfHead }

        // The disk is synced once, and nothing is written; where the call fails that sync may have failed.
        ensures synced { GoesOn (λ old new. IfOk result (λ _. IsSynced old new)) (D.observed disk.old).told (D.observed disk.new).told }
        ensures syncs { GoesOn SyncsOrFails (D.observed disk.old).told (D.observed disk.new).told }

        // At every moment of the call a crash leaves only what it might have left before.
        ensures any_moment { GoesOn (λ old new. GoesThrough FileNo.Head (MayLeave old.present FileNo.Head) old new)
            (D.observed disk.old).told (D.observed disk.new).told }

        ensures cause { HasCauseOf is_disk_fault (D.observed disk.old).faults (D.observed disk.new).faults result }
    {
        a_sync_leaves_nothing_new();
        Writer::open_head(rt, alloc, disk, readers, workers)
    }

    /// Opens the index, as `open` does.
    fn open_head<R: Threads + Wait + Sync, D: Disk>(
        rt: &R,
        alloc: Global,
        disk: &mut D,
        readers: u32,
        workers: u32,
    ) -> Result<Opened, OpenError>
        requires workers { (0 < workers) × (workers ≤ 16) }
        ensures index { GoesOn (λ old new. IfOk result (λ opened. HoldsWithin (bytes_now old FileNo.Head) opened.writer.shown))
            (D.observed disk.old).told (D.observed disk.new).told }
        ensures stands { GoesOn (λ old new. IfOk result (λ opened. StandsOnIndex new.present opened.writer))
            (D.observed disk.old).told (D.observed disk.new).told }
        ensures fresh { IfOk result (λ opened. (opened.writer.begun ≡ []) × (opened.writer.acked ≡ []) × (opened.writer.closed ≡ None)) }
        ensures published { IfOk result (λ opened. (opened.writer.published.opening ≡ opened.writer.shown) × (opened.writer.published.commits ≡ [])) }
        ensures readers { IfOk result (λ opened. opened.readers ≡ replicate readers opened.writer.published) }
        ensures clock { IfOk result (λ opened. (D.observed disk.new).clock ≤ max_count) }
        ensures file { IfErr result IsOfHead }
        ensures bad { GoesOn (λ old new. IfErr result (HasOpenFault (bytes_now old FileNo.Head)))
            (D.observed disk.old).told (D.observed disk.new).told }
        ensures synced { GoesOn (λ old new. IfOk result (λ _. IsSynced old new)) (D.observed disk.old).told (D.observed disk.new).told }
        ensures syncs { GoesOn SyncsOrFails (D.observed disk.old).told (D.observed disk.new).told }
        ensures any_moment { GoesOn (λ old new. GoesThrough FileNo.Head (MayLeave old.present FileNo.Head) old new)
            (D.observed disk.old).told (D.observed disk.new).told }
        ensures cause { HasCauseOf is_disk_fault (D.observed disk.old).faults (D.observed disk.new).faults result }
    {
        numbers_stay_in_order();
        files_stay_apart();
        let Replayed { journal, index } = replay_head(rt, alloc, disk, workers)?;
        // A clock is a number of 64 bits, which the contract tells of the disk as well.
        let _ = disk.clock();
        let started = show_first(rt, alloc, index, readers)?;
        // What is shown is dropped by `finish` alone, so no call from here on can fail.
        let Started { shower, readers } = started;
        Ok(Opened {
            writer: Writer {
                alloc,
                workers,
                journal,
                shower,
                begun: Room::new(alloc),
                acked: Room::new(alloc),
                closed: None,
            },
            readers,
        })
    }
}

/// Shows the index that was opened to n readers, each of which has seen it.
fn show_first<R: Wait>(
    rt: &R,
    alloc: Global,
    opened: Snapshot,
    readers: u32,
) -> Result<Started, NoMemory>
    ensures opening { IfOk result (λ started. started.shower.shown.opening ≡ opened) }
    ensures commits { IfOk result (λ started. started.shower.shown.commits ≡ []) }
    ensures index { IfOk result (λ started. index_of started.shower.shown ≡ opened) }
    ensures staged { IfOk result (λ started. started.shower.staged ≡ None) }
    ensures readers { IfOk result (λ started. started.readers ≡ replicate readers started.shower.shown) }
{
    let first = Arc::new(alloc, opened)?;
    let started = start(rt, alloc, first, readers)?;
    Ok(started)
}
