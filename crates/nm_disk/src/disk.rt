//! What every disk is to the code above: three files that are read and written at places, a sync for all of them, and a
//! clock of the moments at which it may crash. `nm_journal` calls it.

ghost use Rattle.std.specs.Prelude.{◌≡◌, ◌≤◌, ◌+◌, ℕ, List, Option, IfOk, IfSome, OnOk, length, min, take};
ghost use Rattle.nm_base.specs.Limits.{max_count};
ghost use Rattle.nm_disk.specs.Calls.{Looks, OpensDisk, Syncs, Writes};
ghost use Rattle.nm_disk.specs.CrashStates.{IsImage};
ghost use Rattle.nm_disk.specs.Observed.{Moments, ObservedDisk, bytes_now, front_from};

use nm_base::{Failed, Text};
use thiserror::Error;

/// A call of the disk failed; what it was writing is lost or not.
#[derive(Clone, Copy, Debug, Error)]
#[error("disk fault")]
pub struct DiskFault;

/// The three files of a disk.
#[derive(Clone, Copy, Debug)]
pub enum FileNo {
    Head,
    BankA,
    BankB,
}

/// A disk of three files. A moment is between two calls that write or sync; a crash within such a call leaves what a
/// crash at the moment before it may leave, or at the moment after it.
pub trait Disk {
    /// What a read gives and what a crash may leave, at each moment so far, where it is known; the number of the
    /// present moment, and how often the disk has failed.
    ghost observed: { Self → ObservedDisk };

    /// What a read gives is one of the states that a crash may leave.
    ghost reads_an_image: { (disk : Self) → IfSome (observed disk).told (λ moments. IsImage moments.present moments.present.now) };

    /// The length of a file.
    fn len(&mut self, file: FileNo) -> Result<u64, Failed>
        ensures len { IfOk result (λ len. IfSome (observed self.old).told (λ moments. len ≡ length (bytes_now moments file))) }
        ensures looks { Looks (observed self.old) (observed self.new) result };

    /// Fills `into` from this place on as far as the file goes, and answers how many bytes came.
    fn read_at(&mut self, file: FileNo, at: u64, into: &mut [u8]) -> Result<usize, Failed>
        ensures within { IfOk result (λ n. (n ≤ length into.old) × (at + n ≤ max_count)) }
        ensures bytes { IfOk result (λ n. IfSome (observed self.old).told (λ moments. take n into.new ≡ front_from (bytes_now moments file) at (length into.old))) }
        ensures count { IfOk result (λ n. IfSome (observed self.old).told (λ moments. n ≡ length (front_from (bytes_now moments file) at (length into.old)))) }
        ensures looks { Looks (observed self.old) (observed self.new) result };

    /// Writes over what is there, and past the end. Until a sync goes well, a crash may leave any bytes there.
    fn write_at(&mut self, file: FileNo, at: u64, bytes: &[u8]) -> Result<(), Failed>
        requires { IfSome (observed self.old).told (λ moments. at ≤ length (bytes_now moments file)) }
        ensures within { OnOk result (at + length bytes.now ≤ max_count) }
        ensures writes { Writes (observed self.old) (observed self.new) result file at bytes.now };

    /// After it a crash leaves what a read gives, in all three files.
    fn sync(&mut self) -> Result<(), Failed>
        ensures { Syncs (observed self.old) (observed self.new) result };

    /// The number of the present moment, or 2^64 - 1 where that is less.
    fn clock(&self) -> u64
        ensures clock { result ≡ (observed self.now).clock }
        ensures told { IfSome (observed self.now).told (λ moments. result ≡ min (length moments.past) max_count) };

    /// How often it has failed, up to 2^64 - 1.
    fn faults(&self) -> u64
        ensures { result ≡ (observed self.now).faults };
}

/// A disk over the files of a folder, which is opened by its path.
pub trait DiskFolder: Disk {
    /// What is at a path, where it is known.
    ghost moments_at: { Self → List ℕ → Option Moments };

    /// Opens the folder at this path, whose files are the disk's from then on.
    fn open(&mut self, dir: &Text) -> Result<(), Failed>
        ensures { OpensDisk (Self.observed self.old) (moments_at self.old dir.now) (Self.observed self.new) result };
}
