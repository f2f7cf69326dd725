//! A disk in memory, over which `test_index` and `test_session` run. It keeps what each call did, so that it can crash
//! within each.

ghost use Rattle.std.specs.Prelude.{◌≡◌, ◌≤◌, ◌+◌, ◌/◌, ℕ, [], Some, is_err, IfOk, OnOk, OnErr, length, min, replicate, take};
ghost use Rattle.nm_base.specs.Limits.{max_count};
ghost use Rattle.nm_disk.specs.declared.event.Deed.TheVariants.{FailedSync, FailedWrite, Sync, Write};
ghost use Rattle.nm_disk.specs.Calls.{Looks, OpensDisk, Syncs, Writes};
ghost use Rattle.nm_disk.specs.CrashStates.{bytes_of};
ghost use Rattle.nm_disk.specs.Memory.{IsNoted, KeepsFiles, LeavesFiles, called, fresh_disk, moments_of, noted, observed_mem, starved};
ghost use Rattle.nm_disk.specs.MemoryLaws.{mem_reads_an_image};
ghost use Rattle.nm_disk.specs.Observed.{bytes_now, front_from};
ghost use Rattle.nm_faults.specs.Calls.{is_next_listed};

use crate::event::{Deed, Event};
use crate::files::Files;
use crate::{Disk, DiskFolder, FileNo};
use nm_base::{Copies, Failed, Many, NoMemory, Room, Text};
use nm_faults::{Calls, Faults};
use std::alloc::Global;
use std::marker::Model;

/// A disk in memory. Its bytes are known, and what a crash may leave. It fails at the listed calls, and where it can't
/// grow.
#[derive(Drop)]
pub struct MemDisk {
    alloc: Global,
    start: Files,
    /// None as long as nothing was written.
    current: Option<Files>,
    events: Room<Event>,
    made: u64,
    calls: Calls,
    faults: Faults,
    out_of_memory: Faults,
}

impl Model for MemDisk {
    ghost use Rattle.std.specs.Prelude.{◌≡◌};
    ghost use Rattle.nm_disk.specs.Memory.{MemState, files_now, moments_of};

    ghost Value = { MemState };

    ghost view = { λ d. record { start = d.start; events = d.events.0; made = d.made; calls = d.calls; faults = d.faults; out_of_memory = d.out_of_memory } };

    ghost invariant = { λ d. files_now d.start d.current ≡ (moments_of d.start d.events.0).present.now };
}

impl MemDisk {
    /// A disk on which no index was made yet: 128 zero bytes in `Head`, and nothing in the banks.
    pub fn fresh(alloc: Global) -> Result<MemDisk, NoMemory>
        ensures { IfOk result (λ disk. disk ≡ fresh_disk (record { head = replicate 128 0; bank_a = []; bank_b = [] })) }
    {
        let head = Many::from_vec(vec![in alloc; 0u8; 128]?);
        Ok(MemDisk::of(alloc, head, Many::new(alloc), Many::new(alloc)))
    }

    /// A disk with these bytes in its three files, all of them synced.
    pub fn of(alloc: Global, head: Many<u8>, bank_a: Many<u8>, bank_b: Many<u8>) -> MemDisk
        ensures { result ≡ fresh_disk (record { head = head; bank_a = bank_a; bank_b = bank_b }) }
    {
        MemDisk {
            alloc,
            start: Files {
                head,
                bank_a,
                bank_b,
            },
            current: None,
            events: Room::new(alloc),
            made: 0,
            calls: Calls::new(Many::new(alloc)),
            faults: Faults::new(),
            out_of_memory: Faults::new(),
        }
    }

    /// The calls that are to fail from now on, the next call being 1; `clock` and `faults` are not counted.
    pub fn fail_at(&mut self, calls: Many<u64>)
        ensures { self.new ≡ record self.old { calls = record { failing = calls; made = 0; faults = 0 } } }
    {
        self.calls = Calls::new(calls);
    }

    /// How many calls were made since the making; `clock` and `faults` are not counted.
    pub fn calls(&self) -> u64
        ensures { result ≡ self.now.made }
    {
        self.made
    }

    /// How many calls answered `Failed` because there was no memory.
    pub fn out_of_memory(&self) -> u64
        ensures { result ≡ self.now.out_of_memory }
    {
        self.out_of_memory.count()
    }

    /// What a read gives of a file.
    pub fn bytes(&self, file: FileNo) -> &[u8]
        ensures { result.now ≡ bytes_now (moments_of self.now.start self.now.events) file }
    {
        match &self.current {
            Some(files) => files.bytes(file),
            None => self.start.bytes(file),
        }
    }

    /// Counts a call, and answers whether it is to fail.
    fn count(&mut self) -> bool
        ensures listed { result ≡ is_next_listed self.old.calls }
        ensures called { self.new ≡ called self.old }
    {
        self.made = self.made.saturating_add(1);
        let fails = self.calls.count();
        if fails {
            self.faults.add();
        }
        fails
    }

    /// Counts a call that found no memory.
    fn starve(&mut self)
        ensures { self.new ≡ starved self.old }
    {
        self.out_of_memory.add();
    }

    /// Writes the first `taken` bytes, and keeps what was done.
    fn write(&mut self, file: FileNo, at: u64, taken: &[u8], deed: Deed) -> Result<(), NoMemory>
        requires { LeavesFiles deed file at taken.now }
        ensures ok { OnOk result (self.new ≡ noted self.old deed) }
        ensures err { OnErr result (self.new ≡ self.old) }
    {
        self.events.reserve(1)?;
        if self.current.is_none() {
            self.current = Some(self.start.copy()?);
        }
        if let Some(files) = &mut self.current {
            files.overwrite(self.alloc, file, at, taken)?;
        }
        let call = self.made;
        self.events.push_spare(Event { call, deed });
        Ok(())
    }
}

impl MemDisk {
    /// Keeps what a call did that changes nothing that a read gives.
    fn note(&mut self, deed: Deed) -> Result<(), NoMemory>
        requires { KeepsFiles deed }
        ensures ok { OnOk result (self.new ≡ noted self.old deed) }
        ensures err { OnErr result (self.new ≡ self.old) }
    {
        self.events.reserve(1)?;
        let call = self.made;
        self.events.push_spare(Event { call, deed });
        Ok(())
    }

    fn write_whole(&mut self, file: FileNo, at: u64, bytes: &[u8]) -> Result<(), NoMemory>
        ensures ok { OnOk result (self.new ≡ noted self.old (Write file at bytes.now)) }
        ensures err { OnErr result (self.new ≡ self.old) }
        ensures within { OnOk result (at + length bytes.now ≤ max_count) }
    {
        if at.checked_add(bytes.len() as u64).is_none() {
            return Err(NoMemory);
        }
        let kept = Many::from_slice(self.alloc, bytes)?;
        let deed = Deed::Write {
            file,
            at,
            bytes: kept,
        };
        self.write(file, at, bytes, deed)
    }

    /// A write that fails takes the first half of its bytes.
    fn write_half(&mut self, file: FileNo, at: u64, bytes: &[u8]) -> Result<(), NoMemory>
        ensures ok { OnOk result (self.new ≡ noted self.old (FailedWrite file at bytes.now (length bytes.now / 2))) }
        ensures err { OnErr result (self.new ≡ self.old) }
    {
        let kept = Many::from_slice(self.alloc, bytes)?;
        let half = bytes.len() / 2;
        let deed = Deed::FailedWrite {
            file,
            at,
            bytes: kept,
            taken: half as u64,
        };
        self.write(file, at, &bytes[..half], deed)
    }

    fn moment(&self) -> u64
        ensures { result ≡ min (length self.now.events) max_count }
    {
        self.events.as_slice().len() as u64
    }

    pub(crate) fn start(&self) -> &Files
        ensures { result.now ≡ self.now.start }
    {
        &self.start
    }

    pub(crate) fn events(&self) -> &[Event]
        ensures { result.now ≡ self.now.events }
    {
        self.events.as_slice()
    }

    pub(crate) fn alloc(&self) -> Global {
        self.alloc
    }
}

impl Disk for MemDisk {
    ghost observed = { observed_mem };

    ghost reads_an_image = { mem_reads_an_image };

    fn len(&mut self, file: FileNo) -> Result<u64, Failed>
        ensures len { IfOk result (λ len. len ≡ length (bytes_now (moments_of self.old.start self.old.events) file)) }
        ensures looks { Looks (observed_mem self.old) (observed_mem self.new) result }
        ensures called { self.new ≡ called self.old }
        ensures listed { is_err result ≡ is_next_listed self.old.calls }
    {
        if self.count() {
            return Err(Failed);
        }
        Ok(self.bytes(file).len() as u64)
    }

    fn read_at(&mut self, file: FileNo, at: u64, into: &mut [u8]) -> Result<usize, Failed>
        ensures within { IfOk result (λ n. (n ≤ length into.old) × (at + n ≤ max_count)) }
        ensures bytes { IfOk result (λ n. take n into.new ≡ front_from (bytes_now (moments_of self.old.start self.old.events) file) at (length into.old)) }
        ensures count { IfOk result (λ n. n ≡ length (front_from (bytes_now (moments_of self.old.start self.old.events) file) at (length into.old))) }
        ensures looks { Looks (observed_mem self.old) (observed_mem self.new) result }
        ensures called { self.new ≡ called self.old }
        ensures listed { is_err result ≡ is_next_listed self.old.calls }
    {
        if self.count() {
            return Err(Failed);
        }
        Ok(copy_from(self.bytes(file), at, into))
    }

    fn write_at(&mut self, file: FileNo, at: u64, bytes: &[u8]) -> Result<(), Failed>
        requires { at ≤ length (bytes_now (moments_of self.old.start self.old.events) file) }
        ensures within { OnOk result (at + length bytes.now ≤ max_count) }
        ensures writes { Writes (observed_mem self.old) (observed_mem self.new) result file at bytes.now }
        ensures noted { IsNoted self.old self.new result (Write file at bytes.now) (FailedWrite file at bytes.now (length bytes.now / 2)) }
    {
        if self.count() {
            let _ = self.write_half(file, at, bytes);
            return Err(Failed);
        }
        if self.write_whole(file, at, bytes).is_err() {
            self.starve();
            return Err(Failed);
        }
        Ok(())
    }

    fn sync(&mut self) -> Result<(), Failed>
        ensures syncs { Syncs (observed_mem self.old) (observed_mem self.new) result }
        ensures noted { IsNoted self.old self.new result Sync FailedSync }
    {
        if self.count() {
            let _ = self.note(Deed::FailedSync);
            return Err(Failed);
        }
        if self.note(Deed::Sync).is_err() {
            self.starve();
            return Err(Failed);
        }
        Ok(())
    }

    fn clock(&self) -> u64 {
        self.moment()
    }

    fn faults(&self) -> u64 {
        self.faults
            .count()
            .saturating_add(self.out_of_memory.count())
    }
}

impl DiskFolder for MemDisk {
    /// The disk in memory is at each path.
    ghost moments_at = { λ d dir. (observed_mem d).told };

    /// Counts a call.
    fn open(&mut self, _: &Text) -> Result<(), Failed>
        ensures opens { OpensDisk (observed_mem self.old) (observed_mem self.old).told (observed_mem self.new) result }
        ensures called { self.new ≡ called self.old }
        ensures listed { is_err result ≡ is_next_listed self.old.calls }
    {
        if self.count() {
            return Err(Failed);
        }
        Ok(())
    }
}

/// Copies the bytes from the place on, as many as there are and have room.
fn copy_from(bytes: &[u8], at: u64, into: &mut [u8]) -> usize
    ensures within { (result ≤ length into.old) × (at + result ≤ max_count) }
    ensures bytes { take result into.new ≡ front_from bytes.now at (length into.old) }
    ensures count { result ≡ length (front_from bytes.now at (length into.old)) }
{
    if at >= bytes.len() as u64 {
        return 0;
    }
    let rest = &bytes[at as usize..];
    let n = rest.len().min(into.len());
    into[..n].copy_from_slice(&rest[..n]);
    n
}
