//! Laws of the format of records, which `nm_replay` calls, and of what a crash leaves, for `nm_writer` and `nm_history`.

ghost use Rattle.std.specs.Prelude.{◌≡◌, ℕ, List};
ghost use Rattle.nm_disk.specs.CrashStates.{IsImage};
ghost use Rattle.nm_disk.specs.Observed.{Moments};
ghost use Rattle.nm_disk.specs.declared.disk.FileNo.{FileNo};
ghost use Rattle.nm_journal.specs.Moments.{LeavesNothingNew, SyncsOrFails};
ghost use Rattle.nm_journal.specs.Records.{HasRecords, IsBroken};

/// Bytes have one list of records.
pub fn records_are_read_in_one_way()
    ensures { (start : ℕ) (one other : List (List ℕ)) (bytes : List ℕ) → HasRecords start one bytes → HasRecords start other bytes → one ≡ other }
{}

/// Bytes that have records are not broken.
pub fn records_are_not_broken()
    ensures { (start at : ℕ) (bodies : List (List ℕ)) (bytes : List ℕ) → HasRecords start bodies bytes → IsBroken start bytes at → ⊥ }
{}

/// Where two calls, one after the other, leave nothing new of a file, both together leave nothing new of it.
pub fn nothing_new_twice_is_nothing_new()
    ensures { (file : FileNo) (old mid new : Moments) → LeavesNothingNew file old mid → LeavesNothingNew file mid new → LeavesNothingNew file old new }
{}

/// A sync leaves nothing new of any file, whether it goes well or fails.
pub fn a_sync_leaves_nothing_new()
    ensures { (file : FileNo) (old new : Moments) → IsImage old.present old.present.now → SyncsOrFails old new → LeavesNothingNew file old new }
{}
