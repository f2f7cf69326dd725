//! A sink over a writer of std, as `main` makes it of standard output and standard error.

ghost use Rattle.std.specs.Prelude.{◌≡◌, ◌<◌, ◌≤◌, length, IfOk};
ghost use Rattle.std.specs.Io.KnownBytes.{Keeps, WriteAppends};
ghost use Rattle.nm_io.specs.Observed.{PutAppends};

use crate::Sink;
use nm_base::Failed;
use nm_faults::Faults;
use std::io::{ErrorKind, Write};
use std::marker::Model;

/// A sink over a writer of std: its bytes are those of the writer, where these are known, and it has handed on what was put before the
/// last flush of the writer that went well. A piece that was taken in part doesn't count as put. A write that takes no byte of a piece
/// that has some is a fault, and so is a piece with which the count of bytes passes its type's end.
#[derive(Drop)]
pub struct StdSink<W: Write> {
    writer: W,
    put: usize,
    handed: usize,
    faults: Faults,
}

impl<W: Write> Model for StdSink<W> {
    ghost use Rattle.std.specs.Prelude.{ℕ};
    ghost use Rattle.std.specs.Coded.{coded_ℕ, coded×};

    ghost Value = { W × (ℕ × (ℕ × ℕ)) };

    ghost coded = { coded× W.code (coded× coded_ℕ (coded× coded_ℕ coded_ℕ)) };

    ghost view = { λ s. (s.writer, (s.put, (s.handed, s.faults))) };
}

impl<W: Write> StdSink<W> {
    pub fn new(writer: W) -> StdSink<W>
        ensures { result ≡ (writer, (0, (0, 0))) }
    {
        StdSink {
            writer,
            put: 0,
            handed: 0,
            faults: Faults::new(),
        }
    }

    /// The writer, which holds what was put.
    pub fn into_inner(self) -> W
        ensures { result ≡ self.0 }
    {
        let StdSink {
            writer,
            put: _,
            handed: _,
            faults: _,
        } = self;
        writer
    }
}

impl<W: Write> Sink for StdSink<W> {
    ghost observed = { λ s. record { bytes = W.contents s.0; put = s.1.0; handed = s.1.1.0; faults = s.1.1.1 } };

    fn put(&mut self, bytes: &[u8]) -> Result<(), Failed> {
        let Some(put) = self.put.checked_add(bytes.len()) else {
            return Err(self.faults.failed());
        };
        match write_whole(&mut self.writer, bytes) {
            Ok(()) => {
                self.put = put;
                Ok(())
            }
            Err(Failed) => Err(self.faults.failed()),
        }
    }

    fn flush(&mut self) -> Result<(), Failed> {
        match self.writer.flush() {
            Ok(()) => {
                self.handed = self.put;
                Ok(())
            }
            Err(_) => Err(self.faults.failed()),
        }
    }
}

fn write_whole<W: Write>(writer: &mut W, bytes: &[u8]) -> Result<(), Failed>
    ensures { PutAppends (W.contents writer.old) (W.contents writer.new) result bytes.now }
{
    let mut done = 0;
    'pieces: while done < bytes.len() {
        match write_once(writer, &bytes[done..]) {
            Ok(n) => done += n,
            Err(Failed) => return Err(Failed),
        }
    }
    Ok(())
}

/// One write of at least one byte; one that a signal interrupts is tried again.
fn write_once<W: Write>(writer: &mut W, piece: &[u8]) -> Result<usize, Failed>
    ensures count { IfOk result (λ n. n ≤ length piece.now) }
    ensures some { IfOk result (λ n. 0 < n) }
    ensures bytes { WriteAppends (W.contents writer.old) (W.contents writer.new) result piece.now }
{
    'tries: for _ in 0..u64::MAX {
        match writer.write(piece) {
            Ok(0) => return Err(Failed),
            Ok(n) => return Ok(n),
            Err(e) => {
                if e.kind() != ErrorKind::Interrupted {
                    return Err(Failed);
                }
            }
        }
    }
    Err(Failed)
}
