//! Rows on the bytes of a journal, for `answers`: what is written, and what is opened.

ghost use Rattle.std.specs.Prelude.{◌≡◌, ℕ, List, false, IfOk, IfSome};
ghost use Rattle.nm_journal.specs.Journal.{StandsOn};

use crate::disks::with_head;
use crate::names::is_item;
use nm_base::Many;
use nm_disk::{Disk, FileNo};
use nm_journal::{Frame, Journal, JournalError};
use rows::{Lines, Row, RowError};
use std::alloc::Global;

/// The bytes of `Head` in hexadecimal digits, up to the last gate after the records of the lines `|`.
pub fn written(alloc: Global, row: &Row<'_>, head: &[u8]) -> Result<Vec<u8>, RowError> {
    let front = &head[..len_of(row).min(head.len())];
    let digits = hex::encode(alloc, front)?;
    Ok(digits.into_bytes())
}

/// How many bytes the records of the lines `|` and the last gate have.
fn len_of(row: &Row<'_>) -> usize {
    let mut len = 1usize;
    'lines: for line in row.lines.as_slice() {
        if is_item(line) {
            len = len.saturating_add(5).saturating_add(line.bytes.len());
        }
    }
    len
}

/// Appends the body of each line `|`: whether the last one was acknowledged.
pub fn append_all<D: Disk>(alloc: Global, disk: &mut D, row: &Row<'_>) -> Result<bool, RowError> {
    let mut acknowledged = true;
    'bodies: for line in row.lines.as_slice() {
        if is_item(line) {
            acknowledged = append(alloc, disk, line.bytes.as_slice())?;
        }
    }
    Ok(acknowledged)
}

/// The bodies that are found where the lines `|` are `Head`, from the place after `?` on.
pub fn opened(alloc: Global, row: &Row<'_>) -> Result<Vec<u8>, RowError> {
    let at = row.number(b"?", 0)?;
    let head = row.text(alloc, b"|")?;
    let mut owned = with_head(alloc, head);
    found(alloc, &mut owned.disk, at)
}

fn found<D: Disk>(alloc: Global, disk: &mut D, at: u64) -> Result<Vec<u8>, RowError> {
    match bodies_from(alloc, disk, at) {
        Ok(bodies) => told(alloc, bodies.as_slice()),
        Err(JournalError::BadIndex { at, .. }) => bad_at(alloc, at),
        Err(JournalError::DiskFault) => Err(RowError::Broken("disk fault")),
        Err(JournalError::NoMemory) => Err(RowError::NoMemory),
    }
}

/// The bodies of the records of `Head` from a place on.
pub fn bodies_from<D: Disk>(
    alloc: Global,
    disk: &mut D,
    at: u64,
) -> Result<Many<Many<u8>>, JournalError> {
    match Journal::open(alloc, disk, FileNo::Head, at) {
        Ok((_, bodies)) => Ok(bodies),
        Err(error) => Err(error),
    }
}

fn told(alloc: Global, bodies: &[Many<u8>]) -> Result<Vec<u8>, RowError> {
    let mut lines = Lines::new(alloc);
    if bodies.is_empty() {
        lines.line(b"no record");
    }
    'bodies: for body in bodies {
        lines.line(body.as_slice());
    }
    lines.into_bytes()
}

/// What is answered where the index is bad from a place on.
pub fn bad_at(alloc: Global, at: u64) -> Result<Vec<u8>, RowError> {
    let mut lines = Lines::new(alloc);
    lines.line(b"bad at ");
    lines.push_number(at);
    lines.into_bytes()
}

/// Opens the journal of `Head` and appends a body: whether it was acknowledged.
fn append<D: Disk>(alloc: Global, disk: &mut D, body: &[u8]) -> Result<bool, RowError> {
    let frame = frame_of(alloc, body)?;
    let mut journal = open_head(alloc, disk)?;
    Ok(journal.append(disk, &frame).is_ok())
}

/// The journal of `Head`.
fn open_head<D: Disk>(alloc: Global, disk: &mut D) -> Result<Journal, RowError>
    ensures open { IfOk result (λ journal. journal.failed ≡ false) }
    ensures stands { IfOk result (λ journal. IfSome (D.observed disk.new).told (λ moments. (bodies : List (List ℕ)) × StandsOn moments.present journal bodies)) }
{
    match Journal::open(alloc, disk, FileNo::Head, 0) {
        Ok((journal, _bodies)) => Ok(journal),
        Err(_error) => Err(RowError::Broken("the journal can't be opened")),
    }
}

fn frame_of(alloc: Global, body: &[u8]) -> Result<Frame, RowError> {
    if body.len() > u32::MAX as usize {
        return Err(RowError::Broken("a body is too long"));
    }
    Ok(Frame::of_pieces(alloc, body.len() as u32, body, &[])?)
}
