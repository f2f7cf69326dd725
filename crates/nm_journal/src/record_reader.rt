//! Opening a journal, for `nm_replay`: its records are read from the disk, up to the first closed gate.

ghost use Rattle.std.specs.Prelude.{◌≡◌, ℕ, ◌+◌, ◌<◌, ◌≤◌, ◌^◌, List, ◌∷◌, length, take, drop, false, IfErr, IfOk, IfSome};
ghost use Rattle.std.specs.Int.{to_be_bytes, w32};
ghost use Rattle.nm_disk.specs.declared.disk.FileNo.{FileNo};
ghost use Rattle.nm_base.specs.Limits.{max_count};
ghost use Rattle.nm_disk.specs.Calls.{GoesOn, Looks};
ghost use Rattle.nm_disk.specs.CrashStates.{MayLeave};
ghost use Rattle.nm_disk.specs.Observed.{bytes_now};
ghost use Rattle.nm_faults.specs.Faults.{HasCause, HasCauseOf};
ghost use Rattle.nm_journal.specs.Journal.{StandsOn, is_disk_fault};
ghost use Rattle.nm_journal.specs.Moments.{GoesThrough, IsSynced, SyncsOrFails};
ghost use Rattle.nm_journal.specs.FoundRecords.{HasFault, IsHeaderAt, IsNext, IsNextFault, IsNoFault, IsOf};
ghost use Rattle.nm_journal.specs.Records.{AreBodies, HasRecords, records_of};

use crate::{Journal, JournalError};
use nm_base::{Failed, Many};
use nm_disk::{Disk, FileNo};
use std::alloc::Global;

/// The bytes at a gate: how many there are, up to 5, and what they say.
#[derive(Clone, Copy)]
struct Header {
    count: usize,
    gate: u8,
    len: u32,
}

impl Journal {
    /// Opens the records that begin at this place of a file, after a sync, and gives their bodies.
    pub fn open<D: Disk>(
        alloc: Global,
        disk: &mut D,
        file: FileNo,
        at: u64,
    ) -> Result<(Journal, Many<Many<u8>>), JournalError>
        // The bodies are those of the records that a read gives, up to the first closed gate.
        ensures records { GoesOn (λ old new. IfOk result (λ opened. HasRecords at opened.1 (bytes_now old file)))
            (D.observed disk.old).told (D.observed disk.new).told }

        // And so they are whatever a crash leaves from then on.
        ensures stands { GoesOn (λ old new. IfOk result (λ opened. StandsOn new.present opened.0 opened.1))
            (D.observed disk.old).told (D.observed disk.new).told }

        ensures journal { IfOk result (λ opened. (opened.0.file ≡ file) × (opened.0.start ≡ at) × (opened.0.failed ≡ false)) }

        // A bad index is reported only where what a read gives is no records, and then at the stated place.
        ensures bad { GoesOn (λ old new. IfErr result (HasFault file at (bytes_now old file)))
            (D.observed disk.old).told (D.observed disk.new).told }

        // On any disk a bad index is reported of the file that was asked for.
        ensures file { IfErr result (IsOf file) }

        // The disk is synced once, and nothing is written; where the call fails that sync may have failed.
        ensures synced { GoesOn (λ old new. IfOk result (λ _. IsSynced old new)) (D.observed disk.old).told (D.observed disk.new).told }
        ensures syncs { GoesOn SyncsOrFails (D.observed disk.old).told (D.observed disk.new).told }

        // At every moment of the call a crash leaves only what it might have left before.
        ensures any_moment { GoesOn (λ old new. GoesThrough file (MayLeave old.present file) old new)
            (D.observed disk.old).told (D.observed disk.new).told }

        ensures cause { HasCauseOf is_disk_fault (D.observed disk.old).faults (D.observed disk.new).faults result }
    {
        disk.sync()?;
        let (gate, bodies) = read_records(alloc, disk, file, at)?;
        let journal = Journal {
            file,
            start: at,
            gate,
            count: bodies.len() as u64,
            failed: false,
        };
        Ok((journal, bodies))
    }
}

/// The bodies of the records from a place on, and the place of the closed gate after them.
fn read_records<D: Disk>(
    alloc: Global,
    disk: &mut D,
    file: FileNo,
    at: u64,
) -> Result<(u64, Many<Many<u8>>), JournalError>
    ensures records { IfOk result (λ found. IfSome (D.observed disk.old).told (λ moments. HasRecords at found.1 (bytes_now moments file))) }
    ensures gate { IfOk result (λ found. found.0 ≡ at + length (records_of found.1)) }
    ensures place { IfOk result (λ found. (found.0 < max_count) × (length found.1 ≤ found.0)) }
    ensures bad { IfErr result (λ error. IfSome (D.observed disk.old).told (λ moments. HasFault file at (bytes_now moments file) error)) }
    ensures file { IfErr result (IsOf file) }
    ensures told { (D.observed disk.new).told ≡ (D.observed disk.old).told }
    ensures cause { HasCauseOf is_disk_fault (D.observed disk.old).faults (D.observed disk.new).faults result }
{
    let len = disk.len(file)?;
    let mut gate = at;
    let mut bodies = Many::new(alloc);
    'records: loop {
        match next_record(alloc, disk, file, gate, len)? {
            None => return Ok((gate, bodies)),
            Some(body) => {
                gate += 5 + body.len() as u64;
                bodies.push(body)?;
            }
        }
    }
}

/// The body of the record at a gate; none where the gate is closed.
fn next_record<D: Disk>(
    alloc: Global,
    disk: &mut D,
    file: FileNo,
    gate: u64,
    len: u64,
) -> Result<Option<Many<u8>>, JournalError>
    requires { IfSome (D.observed disk.old).told (λ moments. len ≡ length (bytes_now moments file)) }
    ensures next { IfOk result (λ next. IfSome (D.observed disk.old).told (λ moments. IsNext (bytes_now moments file) gate next)) }
    ensures within { IfOk result (λ next. gate < max_count) }
    ensures more { IfOk result (λ next. IfSome next (λ body. (gate < len) × (gate + 5 + length body ≤ max_count) × (length body < 2 ^ 32))) }
    ensures bad { IfErr result (λ error. IfSome (D.observed disk.old).told (λ moments. IsNextFault file (bytes_now moments file) gate error)) }
    ensures file { IfErr result (IsOf file) }
    ensures told { (D.observed disk.new).told ≡ (D.observed disk.old).told }
    ensures cause { HasCauseOf is_disk_fault (D.observed disk.old).faults (D.observed disk.new).faults result }
{
    if gate >= len {
        return Err(JournalError::BadIndex { file, at: len });
    }
    let header = read_header(disk, file, gate)?;
    if header.count == 0 {
        return Err(JournalError::BadIndex { file, at: len });
    }
    if header.gate != 1 {
        return Ok(None);
    }
    if header.count < 5 {
        return Err(JournalError::BadIndex { file, at: gate });
    }
    if u64::from(header.len) > len.saturating_sub(gate + 5) {
        return Err(JournalError::BadIndex { file, at: gate });
    }
    match read_body(alloc, disk, file, gate, header.len) {
        Ok(body) => Ok(Some(body)),
        Err(error) => Err(error),
    }
}

fn read_header<D: Disk>(disk: &mut D, file: FileNo, gate: u64) -> Result<Header, Failed>
    ensures header { IfOk result (λ header. IfSome (D.observed disk.old).told (λ moments. IsHeaderAt (bytes_now moments file) gate header)) }
    ensures within { IfOk result (λ header. gate + header.count ≤ max_count) }
    ensures looks { Looks (D.observed disk.old) (D.observed disk.new) result }
{
    let mut bytes = [0u8; 5];
    let count = disk.read_at(file, gate, &mut bytes)?;
    Ok(header_of(count, bytes))
}

fn header_of(count: usize, bytes: [u8; 5]) -> Header
    ensures count { result.count ≡ count }
    ensures bytes { bytes ≡ result.gate ∷ to_be_bytes w32 result.len }
    ensures fits { result.len < 2 ^ 32 }
{
    let [gate, a, b, c, d] = bytes;
    let len = u32::from_be_bytes([a, b, c, d]);
    Header { count, gate, len }
}

/// The body of the record at a gate. A disk whose bytes aren't known may give fewer than there are.
fn read_body<D: Disk>(
    alloc: Global,
    disk: &mut D,
    file: FileNo,
    gate: u64,
    len: u32,
) -> Result<Many<u8>, JournalError>
    requires place { gate + 5 ≤ max_count }
    requires there { IfSome (D.observed disk.old).told (λ moments. gate + 5 + len ≤ length (bytes_now moments file)) }
    ensures body { IfOk result (λ body. IfSome (D.observed disk.old).told (λ moments. body ≡ take len (drop (gate + 5) (bytes_now moments file)))) }
    ensures within { IfOk result (λ body. (length body ≡ len) × (gate + 5 + len ≤ max_count)) }
    ensures bad { IfErr result (λ error. IfSome (D.observed disk.old).told (λ moments. IsNoFault error)) }
    ensures file { IfErr result (IsOf file) }
    ensures told { (D.observed disk.new).told ≡ (D.observed disk.old).told }
    ensures cause { HasCauseOf is_disk_fault (D.observed disk.old).faults (D.observed disk.new).faults result }
{
    let mut bytes = vec![in alloc; 0u8; len as usize]?;
    let count = disk.read_at(file, gate + 5, bytes.as_mut_slice())?;
    if count < len as usize {
        return Err(JournalError::BadIndex { file, at: gate });
    }
    Ok(Many::from_vec(bytes))
}
