//! What an `append` answers: the record is on the disk, whatever the moment of a crash. `nm_publish` shows nothing without
//! one.

ghost use Rattle.std.specs.Prelude.{◌≡◌};

use crate::Frame;
use std::marker::Model;
use std::snapshot::Snapshot;

/// Made by `Journal::append` alone, and never copied. Contracts see in it the body of the record.
#[derive(Drop)]
pub struct Receipt {
    number: u64,
    clock: u64,
    frame: Snapshot<Frame>,
}

impl Model for Receipt {
    ghost use Rattle.nm_journal.specs.Journal.{ReceiptState};

    ghost Value = { ReceiptState };

    ghost view = { λ r. record { number = r.number; clock = r.clock; body = r.frame.value } };
}

impl Receipt {
    pub(crate) fn new(number: u64, clock: u64, frame: &Frame) -> Receipt
        ensures { result ≡ record { number = number; clock = clock; body = frame.now } }
    {
        Receipt {
            number,
            clock,
            frame: Snapshot::of(frame),
        }
    }

    /// The number of the record in its journal, the first being 1.
    pub fn number(&self) -> u64
        ensures { result ≡ self.now.number }
    {
        self.number
    }

    /// The clock of the disk when the append returned.
    pub fn clock(&self) -> u64
        ensures { result ≡ self.now.clock }
    {
        self.clock
    }
}
