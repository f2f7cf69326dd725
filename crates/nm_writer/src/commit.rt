//! One commit, which every command makes so: `new`, `name_tags` and `tag` call it.

ghost use Rattle.std.specs.Prelude.{◌≡◌, ◌<◌, ◌^◌, false, length, map, min, true, IfErr, IfOk, IfSome, None, OnOk};
ghost use Rattle.std.specs.Arc.{arc_value};
ghost use Rattle.nm_base.specs.Limits.{max_count};
ghost use Rattle.nm_commit.specs.Files.{Fits};
ghost use Rattle.nm_disk.specs.Calls.{GoesOn};
ghost use Rattle.nm_disk.specs.Observed.{ObservedDisk};
ghost use Rattle.nm_faults.specs.Faults.{HasCauseOf};
ghost use Rattle.nm_model_index.specs.Index.{committed};
ghost use Rattle.nm_model_index.specs.declared.base.Base.{Base};
ghost use Rattle.nm_journal.specs.Moments.{GoesThrough, NeverFalls, TouchesOnly};
ghost use Rattle.nm_record.specs.CommitGrammar.{commit_grammar};
ghost use Rattle.nm_record.specs.Commits.{change_bytes};
ghost use Rattle.nm_record.specs.Room.{limit_passed};
ghost use Rattle.nm_writer.specs.Durable.{IsDurable};
ghost use Rattle.nm_writer.specs.Writer.{StandsOnIndex};
ghost use Rattle.nm_writer.specs.AfterCommit.{HoldsEither, IsAfterCommit, IsFull, IsPreparing, IsWithin, is_write_fault};

use crate::{WriteError, Writer};
use nm_base::{Limit, Many, NoMemory};
use nm_changes::{encode_beside, framed};
use nm_commit::Commit;
use nm_disk::{Disk, DiskFault, FileNo};
use nm_journal::{Frame, nothing_new_twice_is_nothing_new};
use nm_model_plan::{files_stay_apart, numbers_stay_in_order};
use nm_record::commit_len;
use nm_replay::{next_snapshot, one_commit_more_is_held};
use nm_state::{RoomError, Snapshot};
use std::alloc::Global;
use std::sync::{Arc, Wait};
use std::thread::Threads;

/// The most commits of a session.
const MAX_COMMITS: usize = 65_536;

/// The most bytes of a commit.
const MAX_COMMIT_BYTES: u64 = 1_073_741_824;

/// What was committed so far: how many commits were begun, and the index that is shown.
#[derive(Drop)]
struct SoFar<'s> {
    begun: usize,
    index: &'s Snapshot,
}

/// What the caller may have made already of a commit: the snapshot after it, and the bytes of each of its changes.
#[derive(Drop)]
pub(crate) struct Ahead {
    pub(crate) next: Option<Snapshot>,
    pub(crate) pieces: Option<Many<Many<u8>>>,
}

impl Writer {
    /// Makes one commit: all memory first, then the record on the disk, then the index after it is shown. It may wait for readers to
    /// leave the snapshot from before.
    pub(crate) fn commit<R: Threads + Wait + Sync, D: Disk>(
        &mut self,
        rt: &R,
        disk: &mut D,
        commit: Commit,
        ahead: Ahead,
    ) -> Result<(), WriteError>
        requires alive { self.old.closed ≡ None }
        requires fits { Fits self.old.shown.files commit }
        requires next { IfSome ahead.next (λ next. next ≡ committed self.old.shown commit) }
        requires pieces { IfSome ahead.pieces (λ pieces. pieces ≡ map change_bytes commit.changes) }
        requires stands { IfSome (D.observed disk.old).told (λ moments. StandsOnIndex moments.present self.old) }

        // What is made, or begun, passes no limit.
        ensures after { IsAfterCommit self.old commit (D.observed disk.new).clock (D.observed disk.new).faults result self.new }

        // Whatever a crash leaves then holds the index that is shown, unless the disk failed.
        ensures stands { self.new.closed ≡ None → IfSome (D.observed disk.new).told (λ moments. StandsOnIndex moments.present self.new) }

        // What is refused before the disk is touched leaves it as it was.
        ensures waits { IfErr result (λ error. is_write_fault error ≡ false → D.observed disk.new ≡ D.observed disk.old) }

        // At every moment of the call a crash leaves the index from before, or the one with the commit.
        ensures any_moment { GoesOn (λ old new. GoesThrough FileNo.Head (HoldsEither self.old.shown commit) old new)
            (D.observed disk.old).told (D.observed disk.new).told }

        // What was acknowledged is never lost.
        ensures durable { (entry : ObservedDisk) (opening : Base) → IsDurable entry opening (D.observed disk.old) self.old
            → IsDurable entry opening (D.observed disk.new) self.new }

        ensures cause { HasCauseOf is_write_fault (D.observed disk.old).faults (D.observed disk.new).faults result }
    {
        nothing_new_twice_is_nothing_new();
        self.make(rt, disk, commit, ahead)
    }

    /// Makes one commit, as `commit` does.
    fn make<R: Threads + Wait + Sync, D: Disk>(
        &mut self,
        rt: &R,
        disk: &mut D,
        commit: Commit,
        ahead: Ahead,
    ) -> Result<(), WriteError>
        requires alive { self.old.closed ≡ None }
        requires fits { Fits self.old.shown.files commit }
        requires next { IfSome ahead.next (λ next. next ≡ committed self.old.shown commit) }
        requires pieces { IfSome ahead.pieces (λ pieces. pieces ≡ map change_bytes commit.changes) }
        requires stands { IfSome (D.observed disk.old).told (λ moments. StandsOnIndex moments.present self.old) }
        ensures after { IsAfterCommit self.old commit (D.observed disk.new).clock (D.observed disk.new).faults result self.new }
        ensures stands { GoesOn (λ old new. OnOk result (StandsOnIndex new.present self.new))
            (D.observed disk.old).told (D.observed disk.new).told }
        ensures any_moment { GoesOn (λ old new. GoesThrough FileNo.Head (HoldsEither self.old.shown commit) old new)
            (D.observed disk.old).told (D.observed disk.new).told }
        ensures others { GoesOn (TouchesOnly FileNo.Head) (D.observed disk.old).told (D.observed disk.new).told }
        ensures rises { NeverFalls (D.observed disk.old).clock (D.observed disk.new).clock }
        ensures number { IfOk result (λ _. IfSome (D.observed disk.new).told (λ moments. (D.observed disk.new).clock ≡ min (length moments.past) max_count)) }
        ensures waits { IfErr result (λ error. is_write_fault error ≡ false → D.observed disk.new ≡ D.observed disk.old) }
        ensures cause { HasCauseOf is_write_fault (D.observed disk.old).faults (D.observed disk.new).faults result }
    {
        numbers_stay_in_order();
        files_stay_apart();
        one_commit_more_is_held();
        let made = self.begun.as_slice().len();
        let so_far = SoFar {
            begun: made,
            index: self.shower.now(),
        };
        let (frame, next) = prepared(rt, self.alloc, self.workers, &so_far, &commit, ahead)?;
        self.begun.reserve(1)?;
        self.acked.reserve(1)?;
        self.shower.stage(&commit, next)?;
        match self.journal.append(disk, &frame) {
            Ok(receipt) => {
                self.begun.push_spare(commit);
                self.acked.push_spare(receipt.clock());
                let _ = self.shower.show(rt, receipt);
                Ok(())
            }
            Err(DiskFault) => {
                self.shower.drop_staged();
                self.begun.push_spare(commit);
                self.closed = Some(disk.faults());
                Err(WriteError::DiskFault)
            }
        }
    }
}

/// The record of the commit, and the snapshot after it.
fn prepared<R: Threads + Wait + Sync>(
    rt: &R,
    alloc: Global,
    workers: u32,
    so_far: &SoFar<'_>,
    commit: &Commit,
    ahead: Ahead,
) -> Result<(Frame, Arc<Snapshot, Global>), WriteError>
    requires fits { Fits so_far.now.index.now.files commit.now }
    requires next { IfSome ahead.next (λ next. next ≡ committed so_far.now.index.now commit.now) }
    requires pieces { IfSome ahead.pieces (λ pieces. pieces ≡ map change_bytes commit.now.changes) }
    ensures frame { IfOk result (λ prepared. prepared.0 ≡ commit_grammar.bytes commit.now) }
    ensures value { IfOk result (λ prepared. commit_grammar.is_value commit.now ≡ true) }
    ensures next { IfOk result (λ prepared. arc_value prepared.1 ≡ committed so_far.now.index.now commit.now) }
    ensures within { IfOk result (λ prepared. IsWithin so_far.now.begun so_far.now.index.now commit.now) }
    ensures limits { IfErr result (IsPreparing so_far.now.begun so_far.now.index.now commit.now) }
{
    if so_far.begun >= MAX_COMMITS {
        return Err(WriteError::Limit(Limit::Commits));
    }
    let len = commit_len(commit);
    if len > MAX_COMMIT_BYTES {
        return Err(WriteError::Limit(Limit::CommitBytes));
    }
    let Ahead { next, pieces } = ahead;
    let next = within_limits(rt, workers, so_far.index, commit, next)?;
    let pieces = match pieces {
        Some(pieces) => Some(pieces),
        None => encode_beside(rt, alloc, workers, len, &commit.changes, &mut || {}).1?,
    };
    let frame = framed(alloc, commit, len as u32, pieces)?;
    let next = shared(alloc, next)?;
    Ok((frame, next))
}

/// The snapshot after the commit, or the first limit that it passes.
fn within_limits<R: Threads>(
    rt: &R,
    workers: u32,
    shown: &Snapshot,
    commit: &Commit,
    next: Option<Snapshot>,
) -> Result<Snapshot, WriteError>
    requires fits { Fits shown.now.files commit.now }
    requires next { IfSome next (λ next. next ≡ committed shown.now commit.now) }
    ensures next { IfOk result (λ next. next ≡ committed shown.now commit.now) }
    ensures within { IfOk result (λ _. limit_passed (committed shown.now commit.now) ≡ None) }
    ensures limits { IfErr result (IsFull (committed shown.now commit.now)) }
{
    let Some(next) = next else {
        return match next_snapshot(rt, workers, shown, commit) {
            Ok(next) => Ok(next),
            Err(RoomError::Limit(limit)) => Err(WriteError::Limit(limit)),
            Err(RoomError::NoMemory) => Err(WriteError::NoMemory),
        };
    };
    match next.limit_passed() {
        None => Ok(next),
        Some(limit) => Err(WriteError::Limit(limit)),
    }
}

/// The snapshot, as readers may share it.
fn shared(alloc: Global, snapshot: Snapshot) -> Result<Arc<Snapshot, Global>, NoMemory>
    ensures { IfOk result (λ shared. arc_value shared ≡ snapshot) }
{
    Ok(Arc::new(alloc, snapshot)?)
}
