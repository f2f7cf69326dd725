//! The command `new`, for `nm_line` and `test_index`: it lists the mail folder, takes in what has come, batch by batch, and lets go
//! what is missing.

ghost use Rattle.std.specs.Prelude.{◌≡◌, ◌<◌, ◌≤◌, ◌++◌, List, Err, IfOk, IfSome, None, length, map};
ghost use Rattle.std.specs.Vec.Iter.{into_iter_items, into_iter_len};
ghost use Rattle.nm_model_answer.specs.NewText.{listed_in};
ghost use Rattle.nm_commit.specs.declared.change.Commit.{Commit};
ghost use Rattle.nm_disk.specs.Observed.{ObservedDisk};
ghost use Rattle.nm_faults.specs.Faults.{HasCauseOf};
ghost use Rattle.nm_model_index.specs.Fits.{FitInTurn};
ghost use Rattle.nm_model_index.specs.Index.{folded};
ghost use Rattle.nm_model_index.specs.declared.base.Base.{Base};
ghost use Rattle.nm_model_plan.specs.NameTags.{commit_of};
ghost use Rattle.nm_model_plan.specs.Plan.{add_of, batch_commit, drop_of, message_ids};
ghost use Rattle.nm_scan.specs.Scan.{AsksNew};
ghost use Rattle.nm_sync.specs.Noted.{since};
ghost use Rattle.nm_sync.specs.Report.{report_with};
ghost use Rattle.nm_writer.specs.Batch.{AreUnknown, BatchFits, IsAfterBatch, IsAfterBatches};
ghost use Rattle.nm_writer.specs.Durable.{IsDurable};
ghost use Rattle.nm_writer.specs.New.{HoldsTheMail, IsAfterNew};
ghost use Rattle.nm_writer.specs.Writer.{StandsOnIndex};
ghost use Rattle.nm_writer.specs.AfterCommit.{IsAfterCommits, is_read_fault, is_write_fault};

use crate::commit::Ahead;
use crate::name_tags::with_names;
use crate::{WriteError, Writer};
use nm_base::{Copies, MailPath, Many, MessageId};
use nm_changes::{adds, drops, ids_of};
use nm_commit::Change;
use nm_disk::Disk;
use nm_maildir::{Given, MailError, Maildir};
use nm_model_answer::NewReport;
use nm_model_plan::{new_commits_fit, new_leaves_what_is_listed, the_files_after_new};
use nm_scan::{
    Mail, ScanError, a_batch_more_is_read, a_batch_that_stops_is_unfinished, batches_are_finished,
    batches_are_what_was_read, no_batch_is_read_at_first, read_batch,
};
use nm_state::Snapshot;
use nm_sync::{Compared, a_new_asks_what_it_notes, compare, report};
use nm_workers::Gate;
use std::alloc::Global;
use std::sync::Wait;
use std::thread::Threads;
use std::vec::IntoIter;

/// Who reads the mails of a batch: n workers at most, who pass the gate.
#[derive(Drop)]
struct Readers<'r, R, G> {
    rt: &'r R,
    workers: u32,
    gate: &'r G,
    ghost workers_few: { (0 < workers) × (workers ≤ 16) },
}

/// What is missing: how many files, the changes that remove them, and their messages.
#[derive(Drop)]
struct Gone {
    files: u64,
    changes: Many<Change>,
    ids: Many<MessageId>,
}

impl Writer {
    /// Reads what has come to the mail folder, batch by batch, and makes a commit of each batch that has mail; then one of what is
    /// missing, where there is something. 1 to 16 workers, who pass the gate, parse the mails of a batch at once; no clause knows how
    /// many they are. What the folder answered is noted. A closed writer asks nothing.
    pub fn new_mail<R: Threads + Wait + Sync, M: Maildir, D: Disk, G: Gate + Sync>(
        &mut self,
        rt: &R,
        mail: &mut M,
        disk: &mut D,
        workers: u32,
        gate: &G,
        given: &mut Many<Given>,
    ) -> Result<NewReport, WriteError>
        requires workers { (0 < workers) × (workers ≤ 16) }
        requires stands { self.old.closed ≡ None → IfSome (D.observed disk.old).told (λ moments. StandsOnIndex moments.present self.old) }

        // What was noted before stays in front. The other clauses speak of what was noted since.
        ensures notes { given.new ≡ given.old ++ since given.old given.new }

        // All commits that are due are made, or by the error the first of them; the report is that of the index before and after.
        // Whatever the error, the commits of the batches before it stay.
        ensures after { IsAfterNew (M.observed mail.old).tree (since given.old given.new) self.old (D.observed disk.new).faults result self.new }

        // After all went well over a tree that is known, the files are the listed ones that are mail, those that have come with the facts
        // of their bytes.
        ensures mail { IfSome (M.observed mail.old).tree (λ tree. IfOk result (λ _. HoldsTheMail tree (listed_in (since given.old given.new)) self.old.shown.files self.new.shown.files)) }

        // A writer that is closed says so, and no device is asked.
        ensures closed { IfSome self.old.closed (λ fault. (result ≡ Err (WriteError.Closed fault)) × (M.observed mail.new ≡ M.observed mail.old) × (D.observed disk.new ≡ D.observed disk.old)) }

        ensures asks { AsksNew (M.observed mail.old) (M.observed mail.new) self.old.shown.files (since given.old given.new) }
        ensures tree { (M.observed mail.new).tree ≡ (M.observed mail.old).tree }
        ensures mail_cause { HasCauseOf is_read_fault (M.observed mail.old).faults (M.observed mail.new).faults result }
        ensures disk_cause { HasCauseOf is_write_fault (D.observed disk.old).faults (D.observed disk.new).faults result }

        // Whatever a crash leaves then holds the index that is shown, unless the disk failed; and what was acknowledged is never
        // lost.
        ensures stands { self.new.closed ≡ None → IfSome (D.observed disk.new).told (λ moments. StandsOnIndex moments.present self.new) }
        ensures durable { (entry : ObservedDisk) (opening : Base) → IsDurable entry opening (D.observed disk.old) self.old
            → IsDurable entry opening (D.observed disk.new) self.new }
    {
        batches_are_what_was_read();
        the_files_after_new();
        new_leaves_what_is_listed();
        match self.closed {
            Some(fault) => Err(WriteError::Closed { fault }),
            None => self.scan_and_take_in(&Readers { rt, workers, gate }, mail, disk, given),
        }
    }

    /// Lists the folder, takes in what has come, lets go what is missing, and reports both.
    fn scan_and_take_in<R: Threads + Wait + Sync, M: Maildir, D: Disk, G: Gate + Sync>(
        &mut self,
        readers: &Readers<'_, R, G>,
        mail: &mut M,
        disk: &mut D,
        given: &mut Many<Given>,
    ) -> Result<NewReport, WriteError>
        requires alive { self.old.closed ≡ None }
        requires stands { IfSome (D.observed disk.old).told (λ moments. StandsOnIndex moments.present self.old) }
        ensures notes { given.new ≡ given.old ++ since given.old given.new }
        ensures after { IsAfterNew (M.observed mail.old).tree (since given.old given.new) self.old (D.observed disk.new).faults result self.new }
        ensures asks { AsksNew (M.observed mail.old) (M.observed mail.new) self.old.shown.files (since given.old given.new) }
        ensures tree { (M.observed mail.new).tree ≡ (M.observed mail.old).tree }
        ensures mail_cause { HasCauseOf is_read_fault (M.observed mail.old).faults (M.observed mail.new).faults result }
        ensures disk_cause { HasCauseOf is_write_fault (D.observed disk.old).faults (D.observed disk.new).faults result }
        ensures stands { self.new.closed ≡ None → IfSome (D.observed disk.new).told (λ moments. StandsOnIndex moments.present self.new) }
        ensures durable { (entry : ObservedDisk) (opening : Base) → IsDurable entry opening (D.observed disk.old) self.old
            → IsDurable entry opening (D.observed disk.new) self.new }
    {
        let given_before = given.len();
        let compared = match compare(self.alloc, self.snapshot(), mail, given) {
            Ok(compared) => compared,
            Err(ScanError::MailFault) => return Err(WriteError::MailFault),
            Err(ScanError::Limit(limit)) => return Err(WriteError::Limit(limit)),
            Err(ScanError::NoMemory) => return Err(WriteError::NoMemory),
        };
        new_commits_fit();
        batches_are_what_was_read();
        a_new_asks_what_it_notes();
        let before = self.snapshot().copy()?;
        let Compared {
            unknown,
            gone,
            removed_ids,
        } = compared;
        let removed = gone.len() as u64;
        let went = drops(self.alloc, gone)?;
        match self.take_in_batches(readers, mail, disk, unknown, given) {
            Ok(()) => {
                let gone = Gone {
                    files: removed,
                    changes: went,
                    ids: removed_ids,
                };
                let given = given.as_slice().split_at(given_before).1;
                self.let_go(readers.rt, disk, &before, gone, given)
            },
            Err(error) => Err(error),
        }
    }

    /// Reads the paths batch by batch. A commit is made of the mails of a batch before the next one is read.
    fn take_in_batches<R: Threads + Wait + Sync, M: Maildir, D: Disk, G: Gate + Sync>(
        &mut self,
        readers: &Readers<'_, R, G>,
        mail: &mut M,
        disk: &mut D,
        unknown: Many<MailPath>,
        given: &mut Many<Given>,
    ) -> Result<(), WriteError>
        requires alive { self.old.closed ≡ None }
        requires unknown { AreUnknown self.old.shown.files unknown }
        requires stands { IfSome (D.observed disk.old).told (λ moments. StandsOnIndex moments.present self.old) }
        ensures after { IsAfterBatches (record { mail = M.observed mail.old; given = given.old }) (record { mail = M.observed mail.new; given = given.new })
            unknown self.old (D.observed disk.new).faults result self.new }
        ensures mail_cause { HasCauseOf is_read_fault (M.observed mail.old).faults (M.observed mail.new).faults result }
        ensures disk_cause { HasCauseOf is_write_fault (D.observed disk.old).faults (D.observed disk.new).faults result }
        ensures stands { self.new.closed ≡ None → IfSome (D.observed disk.new).told (λ moments. StandsOnIndex moments.present self.new) }
        ensures durable { (entry : ObservedDisk) (opening : Base) → IsDurable entry opening (D.observed disk.old) self.old
            → IsDurable entry opening (D.observed disk.new) self.new }
    {
        new_commits_fit();
        no_batch_is_read_at_first();
        a_batch_more_is_read();
        batches_are_finished();
        a_batch_that_stops_is_unfinished();
        let mut paths = unknown.into_vec().into_iter();
        'batches: while paths.len() > 0 {
            match self.take_in_batch(readers, mail, disk, &mut paths, given) {
                Ok(()) => {}
                Err(error) => return Err(error),
            }
        }
        Ok(())
    }

    /// Reads the next batch of the paths, and makes a commit of its mails, where it found some.
    fn take_in_batch<R: Threads + Wait + Sync, M: Maildir, D: Disk, G: Gate + Sync>(
        &mut self,
        readers: &Readers<'_, R, G>,
        mail: &mut M,
        disk: &mut D,
        paths: &mut IntoIter<MailPath, Global>,
        given: &mut Many<Given>,
    ) -> Result<(), WriteError>
        requires alive { self.old.closed ≡ None }
        requires whole { into_iter_len paths.old ≡ length (into_iter_items paths.old) }
        requires some { 0 < length (into_iter_items paths.old) }
        requires fit { BatchFits self.old.shown (record { mail = M.observed mail.old; given = given.old }) (into_iter_items paths.old) }
        requires stands { IfSome (D.observed disk.old).told (λ moments. StandsOnIndex moments.present self.old) }
        ensures after { IsAfterBatch (record { mail = M.observed mail.old; given = given.old }) (record { mail = M.observed mail.new; given = given.new })
            (into_iter_items paths.old) (into_iter_items paths.new) self.old (D.observed disk.new).faults result self.new }
        ensures whole { into_iter_len paths.new ≡ length (into_iter_items paths.new) }
        ensures mail_cause { HasCauseOf is_read_fault (M.observed mail.old).faults (M.observed mail.new).faults result }
        ensures disk_cause { HasCauseOf is_write_fault (D.observed disk.old).faults (D.observed disk.new).faults result }
        ensures stands { self.new.closed ≡ None → IfSome (D.observed disk.new).told (λ moments. StandsOnIndex moments.present self.new) }
        ensures durable { (entry : ObservedDisk) (opening : Base) → IsDurable entry opening (D.observed disk.old) self.old
            → IsDurable entry opening (D.observed disk.new) self.new }
    {
        match read_batch(
            readers.rt,
            self.alloc,
            mail,
            paths,
            readers.workers,
            readers.gate,
            given,
        ) {
            Ok(added) => self.commit_added(readers.rt, disk, added),
            Err(MailError::Failed) => Err(WriteError::MailFault),
            Err(MailError::NoMemory) => Err(WriteError::NoMemory),
        }
    }

    /// Makes a commit of the mails, where there are some.
    #[tactic(auto, using(crate::proofs::DoneLemmas::stops))]
    fn commit_added<R: Threads + Wait + Sync, D: Disk>(
        &mut self,
        rt: &R,
        disk: &mut D,
        added: Many<Mail>,
    ) -> Result<(), WriteError>
        requires alive { self.old.closed ≡ None }
        requires fit { FitInTurn self.old.shown (batch_commit self.old.shown added) }
        requires stands { IfSome (D.observed disk.old).told (λ moments. StandsOnIndex moments.present self.old) }
        ensures after { IsAfterCommits self.old (batch_commit self.old.shown added) (D.observed disk.new).faults result self.new }
        ensures cause { HasCauseOf is_write_fault (D.observed disk.old).faults (D.observed disk.new).faults result }
        ensures stands { self.new.closed ≡ None → IfSome (D.observed disk.new).told (λ moments. StandsOnIndex moments.present self.new) }
        ensures durable { (entry : ObservedDisk) (opening : Base) → IsDurable entry opening (D.observed disk.old) self.old
            → IsDurable entry opening (D.observed disk.new) self.new }
    {
        let ids = ids_of(self.alloc, added.as_slice())?;
        let came = adds(self.alloc, added)?;
        self.commit_some(rt, disk, came, &ids)
    }

    /// Makes a commit of what is missing, where there is something, and reports what the `new` did.
    #[tactic(auto, using(crate::proofs::DoneLemmas::stops))]
    fn let_go<R: Threads + Wait + Sync, D: Disk>(
        &mut self,
        rt: &R,
        disk: &mut D,
        before: &Snapshot,
        gone: Gone,
        given: &[Given],
    ) -> Result<NewReport, WriteError>
        requires alive { self.old.closed ≡ None }
        requires before { (commits : List Commit) × (self.old.shown ≡ folded before.now commits) }
        requires fit { FitInTurn self.old.shown (commit_of self.old.shown gone.changes gone.ids) }
        requires stands { IfSome (D.observed disk.old).told (λ moments. StandsOnIndex moments.present self.old) }
        ensures after { IsAfterCommits self.old (commit_of self.old.shown gone.changes gone.ids) (D.observed disk.new).faults result self.new }
        ensures report { IfOk result (λ report. report ≡ report_with gone.files before.now.files self.new.shown.files given.now) }
        ensures cause { HasCauseOf is_write_fault (D.observed disk.old).faults (D.observed disk.new).faults result }
        ensures stands { self.new.closed ≡ None → IfSome (D.observed disk.new).told (λ moments. StandsOnIndex moments.present self.new) }
        ensures durable { (entry : ObservedDisk) (opening : Base) → IsDurable entry opening (D.observed disk.old) self.old
            → IsDurable entry opening (D.observed disk.new) self.new }
    {
        let Gone {
            files,
            changes,
            ids,
        } = gone;
        match self.commit_some(rt, disk, changes, &ids) {
            Ok(()) => {
                let report = report(self.alloc, before, self.snapshot(), files, given)?;
                Ok(report)
            }
            Err(error) => Err(error),
        }
    }

    /// Makes a commit of the changes of these messages' files, where there are some; it ends with the tags that follow the names.
    #[tactic(auto, using(crate::proofs::DoneLemmas::stops))]
    fn commit_some<R: Threads + Wait + Sync, D: Disk>(
        &mut self,
        rt: &R,
        disk: &mut D,
        changes: Many<Change>,
        ids: &Many<MessageId>,
    ) -> Result<(), WriteError>
        requires alive { self.old.closed ≡ None }
        requires fit { FitInTurn self.old.shown (commit_of self.old.shown changes ids.now) }
        requires stands { IfSome (D.observed disk.old).told (λ moments. StandsOnIndex moments.present self.old) }
        ensures after { IsAfterCommits self.old (commit_of self.old.shown changes ids.now) (D.observed disk.new).faults result self.new }
        ensures cause { HasCauseOf is_write_fault (D.observed disk.old).faults (D.observed disk.new).faults result }
        ensures stands { self.new.closed ≡ None → IfSome (D.observed disk.new).told (λ moments. StandsOnIndex moments.present self.new) }
        ensures durable { (entry : ObservedDisk) (opening : Base) → IsDurable entry opening (D.observed disk.old) self.old
            → IsDurable entry opening (D.observed disk.new) self.new }
    {
        if changes.is_empty() {
            return Ok(());
        }
        let named = with_names(
            rt,
            self.alloc,
            self.workers,
            self.snapshot(),
            changes,
            ids.as_slice(),
        )?;
        let ahead = Ahead {
            next: Some(named.next),
            pieces: named.pieces,
        };
        self.commit(rt, disk, named.commit, ahead)
    }
}
