//! One record more, for `nm_writer`: it is staged after the closed gate, and then the gate is opened.

ghost use Rattle.std.specs.Prelude.{◌≡◌, ◌+◌, ◌<◌, ◌≤◌, ℕ, List, [], ◌∷◌, ◌++◌, true, false, length, min, IfOk, IfSome, OnOk, OnErr};
ghost use Rattle.nm_base.specs.Limits.{max_count};
ghost use Rattle.nm_disk.specs.Calls.{GoesOn};
ghost use Rattle.nm_faults.specs.Faults.{HasCause, HasCauseOf};
ghost use Rattle.nm_journal.specs.Journal.{IsBeforeOrAfter, StandsOn, with_record};
ghost use Rattle.nm_journal.specs.Moments.{GoesThrough, NeverFalls, TouchesOnly};
ghost use Rattle.nm_journal.specs.Records.{HasRecords};
ghost use Rattle.nm_journal.specs.Staged.{EndsAt, StagedAt};

use crate::{Frame, Journal, Receipt};
use nm_base::Failed;
use nm_disk::{Disk, DiskFault, FileNo};

impl Journal {
    /// Adds a record, by four calls of the disk and without memory.
    pub fn append<D: Disk>(&mut self, disk: &mut D, frame: &Frame) -> Result<Receipt, DiskFault>
        requires open { self.old.failed ≡ false }
        requires stands { IfSome (D.observed disk.old).told (λ moments. (bodies : List (List ℕ)) × StandsOn moments.present self.old bodies) }

        ensures ok { OnOk result (self.new ≡ with_record self.old frame.now) }
        ensures err { OnErr result (self.new ≡ record self.old { failed = true }) }
        ensures receipt { IfOk result (λ receipt. receipt ≡ record { number = self.new.count; clock = (D.observed disk.new).clock; body = frame.now }) }

        // The clock of the receipt is the number of moments before the present one.
        ensures number { IfOk result (λ receipt. IfSome (D.observed disk.new).told (λ moments. receipt.clock ≡ min (length moments.past) max_count)) }
        ensures clock { NeverFalls (D.observed disk.old).clock (D.observed disk.new).clock }

        // Once it has answered its receipt, whatever a crash leaves has the record.
        ensures stands { GoesOn
            (λ old new. (bodies : List (List ℕ)) → StandsOn old.present self.old bodies
            → OnOk result (StandsOn new.present self.new (bodies ++ frame.now ∷ [])))
            (D.observed disk.old).told (D.observed disk.new).told }

        // At every moment of the call a crash leaves the records from before, or these and the new one.
        ensures any_moment { GoesOn
            (λ old new. (bodies : List (List ℕ)) → StandsOn old.present self.old bodies
            → GoesThrough self.old.file (IsBeforeOrAfter self.old.start bodies frame.now) old new)
            (D.observed disk.old).told (D.observed disk.new).told }

        // And of the other files only what it might have left before.
        ensures others { GoesOn (TouchesOnly self.old.file) (D.observed disk.old).told (D.observed disk.new).told }

        ensures cause { HasCauseOf (λ _. true) (D.observed disk.old).faults (D.observed disk.new).faults result }
    {
        let file = self.file;
        let gate = self.gate;
        match write_record(disk, file, gate, frame) {
            Ok(()) => {
                self.gate += 5 + frame.len();
                self.count += 1;
                Ok(Receipt::new(self.count, disk.clock(), frame))
            }
            Err(Failed) => {
                self.failed = true;
                Err(DiskFault)
            }
        }
    }
}

/// Stages a record after the closed gate, and opens the gate.
fn write_record<D: Disk>(disk: &mut D, file: FileNo, gate: u64, frame: &Frame) -> Result<(), Failed>
    requires place { gate < max_count }
    requires ends { IfSome (D.observed disk.old).told (λ moments. (start : ℕ) × (bodies : List (List ℕ)) × EndsAt moments.present file start gate bodies) }
    ensures within { OnOk result (gate + 6 + length frame.now ≤ max_count) }
    ensures written { GoesOn
        (λ old new. (start : ℕ) (bodies : List (List ℕ)) → EndsAt old.present file start gate bodies
        → OnOk result (EndsAt new.present file start (gate + 5 + length frame.now) (bodies ++ frame.now ∷ [])))
        (D.observed disk.old).told (D.observed disk.new).told }
    ensures any_moment { GoesOn
        (λ old new. (start : ℕ) (bodies : List (List ℕ)) → EndsAt old.present file start gate bodies
        → GoesThrough file (IsBeforeOrAfter start bodies frame.now) old new)
        (D.observed disk.old).told (D.observed disk.new).told }
    ensures others { GoesOn (TouchesOnly file) (D.observed disk.old).told (D.observed disk.new).told }
    ensures clock { NeverFalls (D.observed disk.old).clock (D.observed disk.new).clock }
    ensures cause { HasCause (D.observed disk.old).faults (D.observed disk.new).faults result }
{
    stage(disk, file, gate, frame)?;
    open_gate(disk, file, gate, frame)
}

/// Writes the length, the body and the next closed gate after the closed gate, and syncs.
fn stage<D: Disk>(disk: &mut D, file: FileNo, gate: u64, frame: &Frame) -> Result<(), Failed>
    requires place { gate < max_count }
    requires ends { IfSome (D.observed disk.old).told (λ moments. (start : ℕ) × (bodies : List (List ℕ)) × EndsAt moments.present file start gate bodies) }
    ensures within { OnOk result (gate + 6 + length frame.now ≤ max_count) }
    ensures staged { GoesOn
        (λ old new. (start : ℕ) (bodies : List (List ℕ)) → EndsAt old.present file start gate bodies
        → OnOk result (StagedAt new.present file start gate bodies frame.now))
        (D.observed disk.old).told (D.observed disk.new).told }
    ensures any_moment { GoesOn
        (λ old new. (start : ℕ) (bodies : List (List ℕ)) → EndsAt old.present file start gate bodies
        → GoesThrough file (HasRecords start bodies) old new)
        (D.observed disk.old).told (D.observed disk.new).told }
    ensures others { GoesOn (TouchesOnly file) (D.observed disk.old).told (D.observed disk.new).told }
    ensures clock { NeverFalls (D.observed disk.old).clock (D.observed disk.new).clock }
    ensures cause { HasCause (D.observed disk.old).faults (D.observed disk.new).faults result }
{
    disk.write_at(file, gate + 1, frame.bytes())?;
    // The record is on the disk before its gate is opened.
    disk.sync()
}

/// Opens the gate before a staged record, and syncs.
fn open_gate<D: Disk>(disk: &mut D, file: FileNo, gate: u64, frame: &Frame) -> Result<(), Failed>
    requires { IfSome (D.observed disk.old).told (λ moments. (start : ℕ) × (bodies : List (List ℕ)) × StagedAt moments.present file start gate bodies frame.now) }
    ensures opened { GoesOn
        (λ old new. (start : ℕ) (bodies : List (List ℕ)) → StagedAt old.present file start gate bodies frame.now
        → OnOk result (EndsAt new.present file start (gate + 5 + length frame.now) (bodies ++ frame.now ∷ [])))
        (D.observed disk.old).told (D.observed disk.new).told }
    ensures any_moment { GoesOn
        (λ old new. (start : ℕ) (bodies : List (List ℕ)) → StagedAt old.present file start gate bodies frame.now
        → GoesThrough file (IsBeforeOrAfter start bodies frame.now) old new)
        (D.observed disk.old).told (D.observed disk.new).told }
    ensures others { GoesOn (TouchesOnly file) (D.observed disk.old).told (D.observed disk.new).told }
    ensures clock { NeverFalls (D.observed disk.old).clock (D.observed disk.new).clock }
    ensures cause { HasCause (D.observed disk.old).faults (D.observed disk.new).faults result }
{
    let _len = frame.len();
    disk.write_at(file, gate, &[1])?;
    // The gate is on the disk before the record is acknowledged.
    disk.sync()
}
