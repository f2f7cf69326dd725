//! The command `tag` of the writer that `lib` offers, for `nm_line`: it finds the tags that its lines want, sets them, and renames the files
//! that follow.

ghost use Rattle.std.specs.Prelude.{◌≡◌, ℕ, List, [], Err, IfSome, None, is_some};
ghost use Rattle.nm_dates.specs.Seconds.{IsMoment};
ghost use Rattle.nm_disk.specs.Observed.{ObservedDisk};
ghost use Rattle.nm_faults.specs.Faults.{Counts, HasCauseOf};
ghost use Rattle.nm_model_index.specs.Fits.{FitInTurn};
ghost use Rattle.nm_model_index.specs.declared.base.Base.{Base};
ghost use Rattle.nm_maildir.specs.declared.given.Given.{Given};
ghost use Rattle.nm_model_plan.specs.Moves.{move_commit};
ghost use Rattle.nm_model_plan.specs.TagCommit.{commit_with};
ghost use Rattle.nm_model_answer.specs.WantedTags.{wanted_by};
ghost use Rattle.nm_changes.specs.WantedTags.{AreTouched};
ghost use Rattle.nm_sync.specs.Noted.{since};
ghost use Rattle.nm_sync.specs.Renamed.{AreTried, AsksRenames};
ghost use Rattle.nm_writer.specs.Durable.{IsDurable};
ghost use Rattle.nm_writer.specs.Tagged.{IsAfterRenames, IsAfterTags, SetsTagsFirst};
ghost use Rattle.nm_writer.specs.Writer.{StandsOnIndex};
ghost use Rattle.nm_writer.specs.AfterCommit.{IsAfterCommits, is_read_fault, is_write_fault};

use crate::commit::Ahead;
use crate::{WriteError, Writer};
use nm_base::Many;
use nm_changes::{Planned, Wanted, plan_tags, wanted_by};
use nm_commit::{Change, Commit};
use nm_disk::Disk;
use nm_flags::Rename;
use nm_maildir::{Given, MailError, Maildir};
use nm_model_answer::{SyncReport, TagChange};
use nm_model_plan::{tag_commits_fit, the_commit_of_tags_leaves_what_is_wanted};
use nm_sync::{RenameLog, no_rename_is_noted_at_first, rename_and_sync};
use std::sync::Wait;
use std::thread::Threads;

impl Writer {
    /// Sets the tags that the lines want, the first line first, in one commit; then renames the files whose names follow their
    /// tags, and makes a commit of those that moved. What the folder answered is noted. A closed writer asks nothing.
    pub fn tag<R: Threads + Wait + Sync, M: Maildir, D: Disk>(
        &mut self,
        rt: &R,
        mail: &mut M,
        disk: &mut D,
        lines: &Many<TagChange>,
        moment: i64,
        given: &mut Many<Given>,
    ) -> Result<SyncReport, WriteError>
        requires moment { IsMoment moment }
        requires stands { self.old.closed ≡ None → IfSome (D.observed disk.old).told (λ moments. StandsOnIndex moments.present self.old) }

        // Both commits are made, or by the error the first of them; the report is of the renames that the tags ask for.
        ensures after { IsAfterTags (wanted_by moment self.old.shown lines.now) (since given.old given.new) self.old (D.observed disk.new).faults result self.new }

        // Where the commit of the tags is not made, nothing is asked of the folder.
        ensures renames_after { SetsTagsFirst (wanted_by moment self.old.shown lines.now) (since given.old given.new) self.old self.new }

        // A writer that is closed says so, and no device is asked.
        ensures closed { IfSome self.old.closed (λ fault. (result ≡ Err (WriteError.Closed fault)) × (M.observed mail.new ≡ M.observed mail.old) × (D.observed disk.new ≡ D.observed disk.old)) }

        // The folder is asked for the renames that are noted, after what was noted before, and for nothing else.
        ensures asks { AsksRenames (M.observed mail.old) (M.observed mail.new) given.old given.new }
        ensures mail_cause { HasCauseOf is_read_fault (M.observed mail.old).faults (M.observed mail.new).faults result }

        // The disk's count rose exactly where the writer is closed now; after a fault of the folder that may be so too.
        ensures disk_cause { self.old.closed ≡ None → Counts (is_some self.new.closed) (D.observed disk.old).faults (D.observed disk.new).faults }

        // Whatever a crash leaves then holds the index that is shown, unless the disk failed; and what was acknowledged is never
        // lost.
        ensures stands { self.new.closed ≡ None → IfSome (D.observed disk.new).told (λ moments. StandsOnIndex moments.present self.new) }
        ensures durable { (entry : ObservedDisk) (opening : Base) → IsDurable entry opening (D.observed disk.old) self.old
            → IsDurable entry opening (D.observed disk.new) self.new }
    {
        no_rename_is_noted_at_first();
        if let Some(fault) = self.closed {
            return Err(WriteError::Closed { fault });
        }
        match wanted_by(self.alloc, self.snapshot(), lines.as_slice(), moment) {
            Ok(wanted) => self.set_tags(rt, mail, disk, &wanted, given),
            Err(error) => Err(error.into()),
        }
    }

    /// Sets the tags that are wanted, whichever command wants them.
    fn set_tags<R: Threads + Wait + Sync, M: Maildir, D: Disk>(
        &mut self,
        rt: &R,
        mail: &mut M,
        disk: &mut D,
        wanted: &Wanted,
        given: &mut Many<Given>,
    ) -> Result<SyncReport, WriteError>
        requires alive { self.old.closed ≡ None }
        requires touched { AreTouched self.old.shown wanted.now.after wanted.now.ids }
        requires stands { IfSome (D.observed disk.old).told (λ moments. StandsOnIndex moments.present self.old) }
        ensures after { IsAfterTags wanted.now.after (since given.old given.new) self.old (D.observed disk.new).faults result self.new }
        ensures renames_after { SetsTagsFirst wanted.now.after (since given.old given.new) self.old self.new }
        ensures asks { AsksRenames (M.observed mail.old) (M.observed mail.new) given.old given.new }
        ensures mail_cause { HasCauseOf is_read_fault (M.observed mail.old).faults (M.observed mail.new).faults result }
        ensures disk_cause { Counts (is_some self.new.closed) (D.observed disk.old).faults (D.observed disk.new).faults }
        ensures stands { self.new.closed ≡ None → IfSome (D.observed disk.new).told (λ moments. StandsOnIndex moments.present self.new) }
        ensures durable { (entry : ObservedDisk) (opening : Base) → IsDurable entry opening (D.observed disk.old) self.old
            → IsDurable entry opening (D.observed disk.new) self.new }
    {
        tag_commits_fit();
        the_commit_of_tags_leaves_what_is_wanted();
        no_rename_is_noted_at_first();
        let planned = plan_tags(self.alloc, self.snapshot(), wanted)?;
        let Planned { changes, renames } = planned;
        match self.commit_changes(rt, disk, changes) {
            Ok(()) => self.rename_files(rt, mail, disk, renames, given),
            Err(error) => Err(error),
        }
    }

    /// Tries the renames, and makes a commit of the files that moved, also where the folder failed.
    fn rename_files<R: Threads + Wait + Sync, M: Maildir, D: Disk>(
        &mut self,
        rt: &R,
        mail: &mut M,
        disk: &mut D,
        plan: Many<Rename>,
        given: &mut Many<Given>,
    ) -> Result<SyncReport, WriteError>
        requires alive { self.old.closed ≡ None }
        requires fit { (given : List Given) → AreTried self.old.shown.files plan given → FitInTurn self.old.shown (move_commit given) }
        requires stands { IfSome (D.observed disk.old).told (λ moments. StandsOnIndex moments.present self.old) }
        ensures tried { AreTried self.old.shown.files plan (since given.old given.new) }
        ensures after { IsAfterRenames self.old.shown.files plan (since given.old given.new) self.old (D.observed disk.new).faults result self.new }
        ensures asks { AsksRenames (M.observed mail.old) (M.observed mail.new) given.old given.new }
        ensures mail_cause { HasCauseOf is_read_fault (M.observed mail.old).faults (M.observed mail.new).faults result }
        ensures disk_cause { Counts (is_some self.new.closed) (D.observed disk.old).faults (D.observed disk.new).faults }
        ensures stands { self.new.closed ≡ None → IfSome (D.observed disk.new).told (λ moments. StandsOnIndex moments.present self.new) }
        ensures durable { (entry : ObservedDisk) (opening : Base) → IsDurable entry opening (D.observed disk.old) self.old
            → IsDurable entry opening (D.observed disk.new) self.new }
    {
        let (done, renamed) = rename_and_sync(self.alloc, mail, self.snapshot(), plan, given);
        let RenameLog { unmoved, moves, .. } = done;
        match renamed {
            Ok(()) => match self.commit_changes(rt, disk, moves) {
                Ok(()) => Ok(SyncReport { unmoved }),
                Err(error) => Err(error),
            },
            Err(MailError::Failed) => {
                let _ = self.commit_changes(rt, disk, moves);
                Err(WriteError::MailFault)
            }
            Err(MailError::NoMemory) => Err(WriteError::NoMemory),
        }
    }

    /// Makes a commit of the changes, where there are some.
    fn commit_changes<R: Threads + Wait + Sync, D: Disk>(
        &mut self,
        rt: &R,
        disk: &mut D,
        changes: Many<Change>,
    ) -> Result<(), WriteError>
        requires alive { self.old.closed ≡ None }
        requires fit { FitInTurn self.old.shown (commit_with changes) }
        requires stands { IfSome (D.observed disk.old).told (λ moments. StandsOnIndex moments.present self.old) }
        ensures after { IsAfterCommits self.old (commit_with changes) (D.observed disk.new).faults result self.new }
        ensures cause { HasCauseOf is_write_fault (D.observed disk.old).faults (D.observed disk.new).faults result }
        ensures stands { self.new.closed ≡ None → IfSome (D.observed disk.new).told (λ moments. StandsOnIndex moments.present self.new) }
        ensures durable { (entry : ObservedDisk) (opening : Base) → IsDurable entry opening (D.observed disk.old) self.old
            → IsDurable entry opening (D.observed disk.new) self.new }
    {
        if changes.is_empty() {
            return Ok(());
        }
        let ahead = Ahead {
            next: None,
            pieces: None,
        };
        self.commit(rt, disk, Commit { changes }, ahead)
    }
}
