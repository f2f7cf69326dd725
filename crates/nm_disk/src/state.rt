//! A disk in memory at one moment: from it `crash` gives the crash states.

ghost use Rattle.std.specs.Prelude.{◌≡◌, ◌∷◌, IfOk, OnOk, take};
ghost use Rattle.nm_disk.specs.Calls.{range_of};
ghost use Rattle.nm_disk.specs.Memory.{after_deed, fresh_state};

use crate::FileNo;
use crate::event::Deed;
use crate::files::Files;
use nm_base::{Copies, Many, NoMemory};
use std::alloc::Global;
use std::mem;

/// Bytes of a file that were written: where they begin, and how many they are.
#[derive(Clone, Copy)]
pub struct Range {
    pub file: FileNo,
    pub start: u64,
    pub len: u64,
}

/// A disk at a moment: what a read gives, what it gave after the last sync that went well, and what was written since,
/// the last first.
#[derive(Drop)]
pub struct DiskState {
    pub now: Files,
    pub synced: Files,
    pub written: Many<Range>,
}

impl DiskState {
    /// All of these files is on the disk.
    pub(crate) fn fresh(alloc: Global, files: &Files) -> Result<DiskState, NoMemory>
        ensures { IfOk result (λ state. state ≡ fresh_state files.now) }
    {
        let now = files.copy()?;
        let synced = files.copy()?;
        Ok(DiskState {
            now,
            synced,
            written: Many::new(alloc),
        })
    }

    /// Does again what a call did.
    pub(crate) fn replay(&mut self, alloc: Global, deed: &Deed) -> Result<(), NoMemory>
        ensures { OnOk result (self.new ≡ after_deed self.old deed.now) }
    {
        match deed {
            Deed::Write { file, at, bytes } => {
                let bytes = bytes.as_slice();
                self.now.overwrite(alloc, *file, *at, bytes)?;
                note(alloc, &mut self.written, *file, *at, bytes.len())?;
            }
            Deed::FailedWrite {
                file,
                at,
                bytes,
                taken,
            } => {
                let whole = bytes.as_slice();
                self.now.overwrite(alloc, *file, *at, front(whole, *taken))?;
                note(alloc, &mut self.written, *file, *at, whole.len())?;
            }
            Deed::Sync => {
                self.synced = self.now.copy()?;
                self.written = Many::new(alloc);
            }
            Deed::FailedSync => {}
        }
        Ok(())
    }
}

/// At most n of the first bytes.
pub(crate) fn front(bytes: &[u8], max: u64) -> &[u8]
    ensures { result.now ≡ take max bytes.now }
{
    if max >= bytes.len() as u64 {
        return bytes;
    }
    &bytes[..max as usize]
}

fn note(
    alloc: Global,
    written: &mut Many<Range>,
    file: FileNo,
    start: u64,
    len: usize,
) -> Result<(), NoMemory>
    ensures { OnOk result (written.new ≡ range_of file start len ∷ written.old) }
{
    let mut ranges = mem::replace(written, Many::new(alloc)).into_vec();
    let len = len as u64;
    ranges.insert(0, Range { file, start, len })?;
    *written = Many::from_vec(ranges);
    Ok(())
}
