//! The snapshot: `nm_eval` and `nm_render` answer from one, and `nm_writer` makes the next with a commit.

ghost use Rattle.std.specs.Prelude.{◌≡◌, ◌+◌, ◌<◌, ◌≤◌, ◌^◌, ◌↔◌, ℕ, List, false, None, Some, IfOk, IsTrue, MatchOption, OnOk, Contains};
ghost use Rattle.std.specs.BTreeMap.{is_at};
ghost use Rattle.std.specs.Cmp.Lexicographic.{slice_cmp};
ghost use Rattle.std.specs.List.{AllByRecursion, filter};
ghost use Rattle.std.specs.List.Sorted.{IsPermutation};
ghost use Rattle.std.specs.Map.{lookup};
ghost use Rattle.std.specs.Option.{option_copied};
ghost use Rattle.std.specs.Ordering.{nat_cmp};
ghost use Rattle.nm_base.specs.Order.{IsSorted, has_text, same_text};
ghost use Rattle.nm_base.specs.declared.limit.Limit.{Limit};
ghost use Rattle.nm_commit.specs.Files.{Fits, has_id, has_path};
ghost use Rattle.nm_model_index.specs.Fits.{ids_named};
ghost use Rattle.nm_model_index.specs.Index.{committed, empty_index, has_entry, rows_of};
ghost use Rattle.nm_model_index.specs.Valid.{IsValid};
ghost use Rattle.nm_record.specs.Room.{limit_passed};
ghost use Rattle.nm_threads.specs.Name.{thread_name};
ghost use Rattle.nm_state.specs.Messages.{live_messages};
ghost use Rattle.nm_state.specs.Snapshot.{retagged, thread_messages};

use crate::commit_fit::fit;
use crate::export::base_of;
use crate::live_messages::LiveMessages;
use crate::load::parts_of;
use crate::messages::messages_of;
use crate::numbers::has_ids;
use crate::room::{RoomError, counts_after, counts_of, limit_passed};
use crate::tag_overlay::retag;
use nm_base::{Copies, Limit, MailPath, Many, MessageId, NoMemory, Tags};
use nm_commit::Commit;
use nm_model_index::Base;
use nm_parts::{Parts, apply_by_halves, apply_changes, take_none_out};
use nm_tables::{
    Files, MessageFiles, Paths, Tagged, files_by_hint, files_of, has_file, is_live, paths_of,
};
use std::alloc::Global;
use std::marker::Model;
use std::thread::Threads;

/// This many changes are worth a thread.
const MANY_CHANGES: usize = 32;

/// An index that doesn't change. A contract sees it as the model's index.
pub struct Snapshot {
    alloc: Global,
    parts: Parts,
}

impl Model for Snapshot {
    ghost use Rattle.nm_model_index.specs.declared.base.Base.{Base};
    ghost use Rattle.nm_parts.specs.Parts.{AreParts, base_of};

    ghost Value = { Base };

    ghost view = { λ s. base_of s.parts };

    ghost invariant = { λ s. AreParts s.parts };
}

impl Drop for Snapshot {
    fn drop(self) {
        let Snapshot { alloc: _, parts: _ } = self;
    }
}

impl Snapshot {
    /// The index before any mail, in no memory.
    pub fn empty(alloc: Global) -> Snapshot
        ensures { result ≡ empty_index }
    {
        Snapshot {
            alloc,
            parts: Parts::new(alloc),
        }
    }

    /// The snapshot of an index as data.
    pub fn of(alloc: Global, base: &Base) -> Result<Snapshot, NoMemory>
        requires valid { IsValid base.now }
        requires numbers { base.now.next ≤ 2 ^ 63 }
        ensures { IfOk result (λ snapshot. snapshot ≡ base.now) }
    {
        Ok(Snapshot {
            alloc,
            parts: parts_of(alloc, base)?,
        })
    }

    /// The index as data.
    pub fn to_base(&self) -> Result<Base, NoMemory>
        ensures base { IfOk result (λ base. base ≡ self.now) }
        ensures valid { IfOk result (λ base. IsValid base) }
    {
        base_of(self.alloc, &self.parts)
    }

    /// The snapshot after a commit. This one stays as it is, and what the commit doesn't touch is in both.
    pub fn apply(&self, commit: &Commit) -> Result<Snapshot, NoMemory>
        requires fits { Fits self.now.files commit.now }
        requires numbers { (committed self.now commit.now).next ≤ 2 ^ 63 }
        requires revision { self.now.revision < 2 ^ 63 }
        ensures { IfOk result (λ new. new ≡ committed self.now commit.now) }
    {
        let mut parts = self.parts.share()?;
        apply_changes(self.alloc, &mut parts, commit.changes.as_slice())?;
        parts.revision = self.parts.revision + 1;
        Ok(Snapshot {
            alloc: self.alloc,
            parts,
        })
    }

    /// The same as `apply`, of many changes in less time: where no mail is taken out, one thread makes the labels while another files
    /// the mails.
    pub fn apply_by_two<R: Threads>(&self, rt: &R, commit: &Commit) -> Result<Snapshot, NoMemory>
        requires fits { Fits self.now.files commit.now }
        requires numbers { (committed self.now commit.now).next ≤ 2 ^ 63 }
        requires revision { self.now.revision < 2 ^ 63 }
        ensures { IfOk result (λ new. new ≡ committed self.now commit.now) }
    {
        let changes = commit.changes.as_slice();
        if changes.len() < MANY_CHANGES || !take_none_out(changes) {
            return self.apply(commit);
        }
        let mut parts = apply_by_halves(rt, self.alloc, &self.parts, changes)?;
        parts.revision = self.revision() + 1;
        Ok(Snapshot {
            alloc: self.alloc,
            parts,
        })
    }

    /// The snapshot in which these messages, which have files, have these tags and no others; its revision is that of this
    /// one, which it takes the place of.
    pub fn with_tags(self, sets: &Many<(MessageId, Tags)>) -> Result<Snapshot, NoMemory>
        requires live { AllByRecursion (λ set. IsTrue (has_id self.files set.0)) sets.now }
        ensures { IfOk result (λ new. new ≡ retagged self sets.now) }
    {
        let Snapshot { alloc, mut parts } = self;
        retag(alloc, &mut parts, sets.as_slice())?;
        Ok(Snapshot { alloc, parts })
    }

    /// Says whether there is a number for each id that the commit names, whether it has one or not, and one for the revision.
    pub fn has_numbers(&self, commit: &Commit) -> bool
        ensures exact { IsTrue result ↔ ((self.now.next + ids_named commit.now.changes ≤ 2 ^ 63) × (self.now.revision < 2 ^ 63)) }
        ensures enough { IsTrue result → (committed self.now commit.now).next ≤ 2 ^ 63 }
    {
        has_ids(&self.parts, commit) && self.parts.revision < 1 << 63
    }

    /// Says whether the index after a commit keeps to the limits, or tells the first that it passes: of files, of its bytes as
    /// data, of numbers. It costs what `apply` costs.
    pub fn room(&self, commit: &Commit) -> Result<(), RoomError>
        requires fits { Fits self.now.files commit.now }
        ensures ok { OnOk result (limit_passed (committed self.now commit.now) ≡ None) }
        ensures enough { OnOk result (((committed self.now commit.now).next ≤ 2 ^ 63) × (self.now.revision < 2 ^ 63)) }
        ensures limit { (limit : Limit) → result ≡ Err (RoomError.Limit limit) → limit_passed (committed self.now commit.now) ≡ Some limit }
    {
        let counts = counts_after(self.alloc, &self.parts, commit)?;
        match limit_passed(counts, self.parts.revision.saturating_add(1)) {
            None => Ok(()),
            Some(limit) => Err(RoomError::Limit(limit)),
        }
    }

    /// The snapshot after a commit, or the first limit that it would pass: what `room` and then `apply` tell, for the work of
    /// one of them.
    pub fn apply_within_limits(&self, commit: &Commit) -> Result<Snapshot, RoomError>
        requires fits { Fits self.now.files commit.now }
        ensures ok { IfOk result (λ new. new ≡ committed self.now commit.now) }
        ensures within { OnOk result (limit_passed (committed self.now commit.now) ≡ None) }
        ensures limit { (limit : Limit) → result ≡ Err (RoomError.Limit limit) → limit_passed (committed self.now commit.now) ≡ Some limit }
    {
        if !self.has_numbers(commit) {
            self.room(commit)?;
            let new = self.apply(commit)?;
            return Ok(new);
        }
        let new = self.apply(commit)?;
        match new.limit_passed() {
            None => Ok(new),
            Some(limit) => Err(RoomError::Limit(limit)),
        }
    }

    /// The first limit that the index passes, if it passes one.
    pub fn limit_passed(&self) -> Option<Limit>
        ensures { result ≡ limit_passed self.now }
    {
        limit_passed(counts_of(&self.parts), self.parts.revision)
    }

    /// How many commits there were.
    pub fn revision(&self) -> u64
        ensures { result ≡ self.now.revision }
    {
        self.parts.revision
    }

    /// The tags of a message that has a file.
    pub fn tags(&self, id: &MessageId) -> Option<&Tags>
        ensures { option_copied result ≡ lookup (is_at (slice_cmp nat_cmp id.now)) self.now.tags }
    {
        let tags = self.parts.tags.get(id)?;
        Some(tags.get())
    }

    /// The same, for less work where messages are asked for in the order in which they came. Beside the tags is where the
    /// next ones are looked for first; wherever a search begins, it finds the same.
    pub fn tags_by_hint(&self, id: &MessageId, slot_hint: u64) -> Option<(u64, &Tags)>
        ensures { MatchOption result (lookup (is_at (slice_cmp nat_cmp id.now)) self.now.tags ≡ None) (λ found. lookup (is_at (slice_cmp nat_cmp id.now)) self.now.tags ≡ Some found.1.now) }
    {
        match self.parts.tags.get_by_hint(id, slot_hint) {
            Some((slot_hint, tags)) => Some((slot_hint, tags.get())),
            None => None,
        }
    }

    /// The messages that have a file, in no particular order, each with its tags.
    pub fn tagged(&self) -> Tagged<'_>
        ensures { IsPermutation self.now.tags result }
    {
        self.parts.tags.iter()
    }

    /// The number of an id that has been named.
    pub fn number(&self, id: &MessageId) -> Option<u64>
        ensures { MatchOption result (has_entry self.now id.now ≡ false) (λ number. Contains self.now.entries (id.now, number)) }
    {
        self.parts.labels.number_of(id)
    }

    /// The name of the thread of an id that has been named.
    pub fn thread(&self, id: &MessageId) -> Option<u64>
        ensures { result ≡ thread_name (rows_of self.now) self.now.entries id.now }
    {
        self.parts.labels.name_of(id)
    }

    /// Where the thread of the next id is looked for first, and the name of this one's, for less work where ids are asked for in
    /// the order of their numbers; wherever a search begins, it finds the same.
    pub fn thread_by_hint(&self, id: &MessageId, slot_hint: u64) -> (u64, Option<u64>)
        ensures { result.1 ≡ thread_name (rows_of self.now) self.now.entries id.now }
    {
        self.parts.labels.name_by_hint(id, slot_hint)
    }

    /// The messages of the thread of this name that have a file, by their numbers; none where no thread has it. It costs what
    /// the ids of the thread cost, however many others there are.
    pub fn thread_messages(&self, name: u64) -> Result<Many<MessageId>, NoMemory>
        ensures { IfOk result (λ ids. ids ≡ thread_messages self.now name) }
    {
        messages_of(self.alloc, &self.parts, name)
    }

    /// Says whether the commit has a change, and each fits what those before it leave.
    pub fn fits(&self, commit: &Commit) -> Result<bool, NoMemory>
        ensures { IfOk result (λ fits. IsTrue fits ↔ Fits self.now.files commit.now) }
    {
        if commit.changes.is_empty() {
            return Ok(false);
        }
        fit(
            self.alloc,
            &self.parts.file_table,
            commit.changes.as_slice(),
        )
    }

    /// The messages that have a file, by their numbers, each with its files: nobody has to look these up again.
    pub fn messages(&self) -> LiveMessages<'_>
        ensures { result ≡ live_messages self.now.files self.now.entries }
    {
        LiveMessages::of(self.parts.labels.entries(), &self.parts.file_table)
    }

    /// The paths of all files, in the order of their bytes.
    pub fn paths(&self) -> Paths<'_>
        ensures sorted { IsSorted result }
        ensures paths { (path : List ℕ) → has_text result path ≡ has_path self.now.files path }
    {
        paths_of(&self.parts.file_table)
    }

    /// All files, in the order of their arrival.
    pub fn files_in_order(&self) -> Files<'_>
        ensures { result ≡ self.now.files }
    {
        Files::of(self.parts.file_table.files.pairs())
    }

    /// Says whether a message has a file.
    pub fn is_live(&self, id: &MessageId) -> bool
        ensures { result ≡ has_id self.now.files id.now }
    {
        is_live(&self.parts.file_table, id)
    }

    /// The files of a message, the lead file first; none where the id has no file.
    pub fn files(&self, id: &MessageId) -> Option<MessageFiles<'_>>
        ensures { MatchOption result (has_id self.now.files id.now ≡ false) (λ files. files ≡ filter (λ file. same_text id.now file.1.id) self.now.files) }
    {
        files_of(&self.parts.file_table, id)
    }

    /// The same as `files`, for less work where messages are asked for in the order in which they came. Beside the files is
    /// where the next ones are looked for first; wherever a search begins, it finds the same.
    pub fn files_by_hint(&self, id: &MessageId, slot_hint: u64) -> Option<(u64, MessageFiles<'_>)>
        ensures { MatchOption result (has_id self.now.files id.now ≡ false) (λ found. found.1 ≡ filter (λ file. same_text id.now file.1.id) self.now.files) }
    {
        files_by_hint(&self.parts.file_table, id, slot_hint)
    }

    /// Says whether a file is there.
    pub fn has_path(&self, path: &MailPath) -> bool
        ensures { result ≡ has_path self.now.files path.now }
    {
        has_file(&self.parts.file_table, path)
    }
}

/// What a snapshot holds is an index: no id is in it twice, and each id of a mail has a number.
pub fn a_snapshot_is_a_valid_index(snapshot: &Snapshot)
    ensures { IsValid snapshot.now }
{
    // No code needs the numbers; that labels are numbered, and tags in order, comes with them.
    let _ = snapshot.parts.labels.next();
    snapshot.parts.tags.order();
}

/// The copy is a clone.
impl Copies for Snapshot {
    fn copy(&self) -> Result<Snapshot, NoMemory> {
        Ok(Snapshot {
            alloc: self.alloc,
            parts: self.parts.share()?,
        })
    }
}
