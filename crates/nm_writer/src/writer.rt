//! The writer of an index on a disk: `nm_session` has one from the opening to the end of its log.

ghost use Rattle.std.specs.Prelude.{◌≡◌, ◌≤◌, length, is_some};
ghost use Rattle.nm_base.specs.Limits.{max_commits};
ghost use Rattle.nm_model_plan.specs.Apart.{AreApart};
ghost use Rattle.nm_model_plan.specs.Numbering.{AreNumbered};
ghost use Rattle.nm_publish.specs.Published.{index_of};

use nm_base::{Many, Room};
use nm_commit::Commit;
use nm_journal::Journal;
use nm_publish::{Shower, Shown};
use nm_state::Snapshot;
use std::alloc::Global;
use std::marker::Model;
use std::sync::Wait;

/// The index that a disk holds, the journal that it is kept in, and who shows it to readers. It is not dropped: end it by
/// `finish`.
pub struct Writer {
    pub(crate) alloc: Global,
    /// This many threads may work at once.
    pub(crate) workers: u32,
    pub(crate) journal: Journal,
    /// Nothing is staged between two calls.
    pub(crate) shower: Shower,
    /// The commits begun since the opening.
    pub(crate) begun: Room<Commit>,
    /// Of each that was acknowledged, the clock of the disk at that moment.
    pub(crate) acked: Room<u64>,
    /// The faults of the disk when it failed.
    pub(crate) closed: Option<u64>,
}

impl Model for Writer {
    ghost use Rattle.std.specs.Prelude.{◌≡◌, ◌≤◌, None, false, length};
    ghost use Rattle.nm_base.specs.Limits.{max_commits};
    ghost use Rattle.nm_model_plan.specs.Apart.{AreApart};
    ghost use Rattle.nm_model_plan.specs.Numbering.{AreNumbered};
    ghost use Rattle.nm_publish.specs.Published.{index_of};
    ghost use Rattle.nm_writer.specs.Writer.{WriterState};

    ghost Value = { WriterState };

    ghost view = { λ w. record { journal = w.journal; published = w.shower.shown; shown = index_of w.shower.shown; begun = w.begun.0; acked = w.acked.0; closed = w.closed } };

    ghost invariant = { λ w. (w.closed ≡ None → w.journal.failed ≡ false) × (length w.begun.0 ≤ max_commits)
        × AreNumbered (index_of w.shower.shown) × AreApart (index_of w.shower.shown).files × (w.shower.staged ≡ None) };
}

impl Writer {
    /// The index after all commits that were acknowledged.
    pub fn snapshot(&self) -> &Snapshot
        ensures { result.now ≡ self.now.shown }
    {
        self.shower.now()
    }

    /// Names what was shown last, at first the opening index. It takes no memory and waits for nobody.
    pub fn tell(&mut self) -> Shown
        ensures writer { self.new ≡ self.old }
        ensures shown { result ≡ self.old.published }

        // Its index is the one that is shown.
        ensures index { index_of result ≡ self.old.shown }
    {
        self.shower.tell()
    }

    /// The index that is shown numbers its messages in order, and no two of its files are at one path: its clauses are the law.
    pub fn shows_an_ordered_index(&self)
        ensures numbered { AreNumbered self.now.shown }
        ensures apart { AreApart self.now.shown.files }
    {
        let _ = &self.closed;
    }

    /// Whether the disk failed in a commit, so that no further one is made.
    pub fn is_closed(&self) -> bool
        ensures { result ≡ is_some self.now.closed }
    {
        self.closed.is_some()
    }

    /// For each commit that was acknowledged since the opening, in order, the clock of the disk at that moment.
    pub fn acked(&self) -> &[u64]
        ensures acked { result.now ≡ self.now.acked }

        // No more commits are begun than a session may make.
        ensures few { length self.now.begun ≤ max_commits }
    {
        self.acked.as_slice()
    }

    /// The faults of the disk when a commit failed; no commit is made after that.
    pub fn closed(&self) -> Option<u64>
        ensures { result ≡ self.now.closed }
    {
        self.closed
    }

    /// Ends the publishing: it waits until no reader is at a snapshot, and readers find none after it. Gives the commits begun since
    /// the opening, and the clocks of those that were acknowledged; it takes no memory. The last commit has no clock where the disk
    /// failed.
    pub fn finish<R: Wait>(self, rt: &R) -> (Many<Commit>, Many<u64>)
        ensures begun { result.0 ≡ self.begun }
        ensures acked { result.1 ≡ self.acked }
    {
        let Writer {
            alloc: _,
            workers: _,
            journal: _,
            shower,
            begun,
            acked,
            closed: _,
        } = self;
        shower.finish(rt);
        (begun.into_many(), acked.into_many())
    }
}
