//! A journal: where its records are, and whether it may still be written. `nm_writer` holds one.

ghost use Rattle.std.specs.Prelude.{◌≡◌, ◌≤◌, ◌<◌, ◌+◌, [], false, IfSome};
ghost use Rattle.nm_base.specs.Limits.{max_count};
ghost use Rattle.nm_disk.specs.CrashStates.{MayLeave};
ghost use Rattle.nm_journal.specs.Journal.{StandsOn};
ghost use Rattle.nm_journal.specs.Moments.{LeavesOnly};
ghost use Rattle.nm_journal.specs.Records.{HasRecords};

use nm_base::{Failed, NoMemory};
use nm_disk::{Disk, FileNo};
use std::alloc::AllocError;
use std::marker::Model;
use thiserror::Error;

/// Why a journal can't be opened.
#[derive(Debug, Drop, Error)]
pub enum JournalError {
    #[error("disk fault")]
    DiskFault,
    /// The bytes of the file are no records from this place on.
    #[error("bad index")]
    BadIndex { file: FileNo, at: u64 },
    #[error("no memory")]
    NoMemory,
}

impl From<Failed> for JournalError {
    ghost use Rattle.std.specs.Prelude.{◌≡◌};
    ghost use Rattle.nm_journal.specs.declared.journal.JournalError.TheVariants.{DiskFault as Fault};

    ghost from_gives = { λ _ e. e ≡ Fault };

    fn from(_: Failed) -> JournalError {
        JournalError::DiskFault
    }
}

impl From<NoMemory> for JournalError {
    ghost use Rattle.std.specs.Prelude.{◌≡◌};
    ghost use Rattle.nm_journal.specs.declared.journal.JournalError.TheVariants.{NoMemory as OutOfMemory};

    ghost from_gives = { λ _ e. e ≡ OutOfMemory };

    fn from(_: NoMemory) -> JournalError {
        JournalError::NoMemory
    }
}

impl From<AllocError> for JournalError {
    ghost use Rattle.std.specs.Prelude.{◌≡◌};
    ghost use Rattle.nm_journal.specs.declared.journal.JournalError.TheVariants.{NoMemory as OutOfMemory};

    ghost from_gives = { λ _ e. e ≡ OutOfMemory };

    fn from(_: AllocError) -> JournalError {
        JournalError::NoMemory
    }
}

/// Records in a file of a disk, each there whole or not at all. It has failed for good after a fault of the disk.
#[derive(Drop)]
pub struct Journal {
    pub(crate) file: FileNo,
    pub(crate) start: u64,
    pub(crate) gate: u64,
    pub(crate) count: u64,
    pub(crate) failed: bool,
}

impl Model for Journal {
    ghost use Rattle.std.specs.Prelude.{◌<◌, ◌≤◌};
    ghost use Rattle.nm_base.specs.Limits.{max_count};
    ghost use Rattle.nm_journal.specs.Journal.{JournalState};

    ghost Value = { JournalState };

    ghost view = { λ j. record { file = j.file; start = j.start; gate = j.gate; count = j.count; failed = j.failed } };

    ghost invariant = { λ j. (j.gate < max_count) × (j.count ≤ j.gate) };
}

impl Journal {
    /// A journal without records, over a closed gate.
    pub fn at_closed<D: Disk>(disk: &D, file: FileNo, at: u64) -> Journal
        requires place { at < max_count }
        requires closed { IfSome (D.observed disk.now).told (λ moments. LeavesOnly file (HasRecords at []) moments.present) }
        ensures journal { result ≡ record { file = file; start = at; gate = at; count = 0; failed = false } }
        ensures stands { IfSome (D.observed disk.now).told (λ moments. StandsOn moments.present result []) }
    {
        let _ = disk;
        Journal {
            file,
            start: at,
            gate: at,
            count: 0,
            failed: false,
        }
    }

    /// Whether a call of the disk has failed in this journal. It then takes no more records.
    pub fn failed(&self) -> bool
        ensures { result ≡ self.now.failed }
    {
        self.failed
    }
}
