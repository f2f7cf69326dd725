//! A crash of a disk in memory within one of its calls: a disk that holds one of the crash states of that moment, for
//! rows of `test_index` and `test_session`.

ghost use Rattle.std.specs.Prelude.{◌≡◌, ◌≤◌, IfOk, OnOk, replicate};
ghost use Rattle.nm_disk.specs.CrashStates.{IsImage, bytes_of, overwritten, with_bytes};
ghost use Rattle.nm_disk.specs.Memory.{filled, fresh_disk, picked, stopped, stopped_after};

use crate::MemDisk;
use crate::event::Event;
use crate::files::Files;
use crate::state::{DiskState, Range};
use nm_base::NoMemory;
use std::alloc::Global;

/// What the ranges hold that were written and not synced.
#[derive(Clone, Copy)]
pub enum Pick {
    /// What they held before.
    Old,
    /// What was written.
    New,
    /// This byte.
    Fill(u8),
}

impl MemDisk {
    /// The disk after a crash within this call, the first call since the making being 1.
    pub fn stop_at(&self, call: u64, pick: Pick) -> Result<MemDisk, NoMemory>
        requires { (1 ≤ call) × (call ≤ self.now.made) }
        ensures picked { IfOk result (λ disk. disk ≡ fresh_disk (picked pick (stopped self.now call))) }

        // It is one of the states that a crash may leave then.
        ensures image { IsImage (stopped self.now call) (picked pick (stopped self.now call)) }
    {
        let alloc = self.alloc();
        let state = state_at(alloc, self.start(), self.events(), call)?;
        let files = pick_files(alloc, state, pick)?;
        let Files {
            head,
            bank_a,
            bank_b,
        } = files;
        Ok(MemDisk::of(alloc, head, bank_a, bank_b))
    }
}

fn state_at(
    alloc: Global,
    start: &Files,
    events: &[Event],
    call: u64,
) -> Result<DiskState, NoMemory>
    ensures { IfOk result (λ state. state ≡ stopped_after start.now events.now call) }
{
    let mut state = DiskState::fresh(alloc, start)?;
    'events: for event in events {
        if event.is_begun(call) {
            state.replay(alloc, &event.deed)?;
        }
    }
    Ok(state)
}

fn pick_files(alloc: Global, state: DiskState, pick: Pick) -> Result<Files, NoMemory>
    ensures { IfOk result (λ files. files ≡ picked pick state) }
{
    let DiskState {
        now,
        synced,
        written,
    } = state;
    match pick {
        Pick::Old => Ok(synced),
        Pick::New => Ok(now),
        Pick::Fill(byte) => fill_all(alloc, synced, written.as_slice(), byte),
    }
}

/// Fills the ranges, the last of which is the first that was written.
fn fill_all(alloc: Global, synced: Files, written: &[Range], byte: u8) -> Result<Files, NoMemory>
    ensures { IfOk result (λ files. files ≡ filled byte synced written.now) }
{
    let mut files = synced;
    let mut left = written.len();
    'fills: while left > 0 {
        left -= 1;
        fill(alloc, &mut files, &written[left], byte)?;
    }
    Ok(files)
}

fn fill(alloc: Global, files: &mut Files, range: &Range, byte: u8) -> Result<(), NoMemory>
    ensures { OnOk result (files.new ≡ with_bytes files.old range.now.file (overwritten (bytes_of range.now.file files.old) range.now.start (replicate range.now.len byte))) }
{
    let bytes = vec![in alloc; byte; range.len as usize]?;
    files.overwrite(alloc, range.file, range.start, bytes.as_slice())
}
