//! Rows on the disks of a real folder: each call is on one of two disks. For `answers`.

use crate::calls::{Called, Shown, call_all, push_answer};
use crate::real_folder::RealFolder;
use nm_base::Failed;
use nm_disk::{Disk, DiskFolder, FileDisk, FileNo};
use rows::{Lines, Row, RowError, cut, named, number_of};

/// A read asks for this many bytes.
const READ: usize = 16;

/// One of the two disks.
#[derive(Clone, Copy)]
enum Which {
    First,
    Second,
}

/// A call of a disk.
#[derive(Clone, Copy)]
enum DiskCall {
    Open,
    Len,
    Read,
    Write,
    Sync,
    Clock,
    Faults,
    Close,
}

const DISKS: [(&[u8], Which); 2] = [(b"first", Which::First), (b"second", Which::Second)];

const CALLS: [(&[u8], DiskCall); 8] = [
    (b"open", DiskCall::Open),
    (b"len", DiskCall::Len),
    (b"read", DiskCall::Read),
    (b"write", DiskCall::Write),
    (b"sync", DiskCall::Sync),
    (b"clock", DiskCall::Clock),
    (b"faults", DiskCall::Faults),
    (b"close", DiskCall::Close),
];

const FILES: [(&[u8], FileNo); 3] = [
    (b"head", FileNo::Head),
    (b"a", FileNo::BankA),
    (b"b", FileNo::BankB),
];

/// The two disks of a row, which open what is in the folder.
#[derive(Drop)]
struct Disks<'a> {
    folder: &'a RealFolder<'a>,
    first: FileDisk,
    second: FileDisk,
}

pub fn push(folder: &RealFolder<'_>, row: &Row<'_>, lines: &mut Lines) -> Result<(), RowError> {
    match new_disks(folder) {
        Ok(disks) => {
            let mut disks = disks;
            call_all(&mut disks, row, lines)
        }
        Err(error) => Err(error),
    }
}

fn new_disks<'a>(folder: &'a RealFolder<'a>) -> Result<Disks<'a>, RowError> {
    let first = new_disk(folder.rt)?;
    let second = new_disk(folder.rt)?;
    Ok(Disks {
        folder,
        first,
        second,
    })
}

fn new_disk(rt: &HostRuntime) -> Result<FileDisk, RowError> {
    match rt.clone() {
        Ok(rt) => Ok(FileDisk::new(rt)),
        Err(_) => Err(RowError::NoMemory),
    }
}

impl Called for Disks<'_> {
    fn call(&mut self, call: &[u8], lines: &mut Lines) -> Result<(), RowError> {
        let (name, call) = cut(call, b' ');
        match named(&DISKS, name)? {
            Which::First => call_disk(self.folder, &mut self.first, call, lines),
            Which::Second => call_disk(self.folder, &mut self.second, call, lines),
        }
    }
}

fn call_disk(
    folder: &RealFolder<'_>,
    disk: &mut FileDisk,
    call: &[u8],
    lines: &mut Lines,
) -> Result<(), RowError> {
    let (name, words) = cut(call, b' ');
    match named(&CALLS, name)? {
        DiskCall::Open => open(folder, disk, words, lines),
        DiskCall::Len => push_len(disk, words, lines),
        DiskCall::Read => read(disk, words, lines),
        DiskCall::Write => write(disk, words, lines),
        DiskCall::Sync => push_answer(disk.sync(), lines),
        DiskCall::Clock => push_count(disk.clock(), lines),
        DiskCall::Faults => push_count(disk.faults(), lines),
        DiskCall::Close => close(folder.rt, disk, lines),
    }
}

fn open(
    folder: &RealFolder<'_>,
    disk: &mut FileDisk,
    path: &[u8],
    lines: &mut Lines,
) -> Result<(), RowError> {
    match folder.below(path) {
        Ok(path) => push_answer(disk.open(&path), lines),
        Err(error) => Err(error),
    }
}

fn close(rt: &HostRuntime, disk: &mut FileDisk, lines: &mut Lines) -> Result<(), RowError> {
    *disk = new_disk(rt)?;
    lines.push(b"closed");
    Ok(())
}

fn push_len(disk: &mut FileDisk, file: &[u8], lines: &mut Lines) -> Result<(), RowError> {
    push_answer(disk.len(named(&FILES, file)?), lines)
}

fn push_count(count: u64, lines: &mut Lines) -> Result<(), RowError> {
    count.push(lines);
    Ok(())
}

/// `FILE PLACE`
fn read(disk: &mut FileDisk, words: &[u8], lines: &mut Lines) -> Result<(), RowError> {
    let (file, place) = cut(words, b' ');
    read_at(disk, named(&FILES, file)?, number_of(place)?, lines);
    Ok(())
}

fn read_at(disk: &mut FileDisk, file: FileNo, place: u64, lines: &mut Lines) {
    let mut bytes = [0; READ];
    match disk.read_at(file, place, &mut bytes) {
        Ok(count) => {
            lines.push(b"read");
            lines.push_after_blank(&bytes[..count]);
        }
        Err(Failed) => lines.push(b"failed"),
    }
}

/// `FILE PLACE TEXT`
fn write(disk: &mut FileDisk, words: &[u8], lines: &mut Lines) -> Result<(), RowError> {
    let (file, words) = cut(words, b' ');
    let (place, text) = cut(words, b' ');
    let written = disk.write_at(named(&FILES, file)?, number_of(place)?, text);
    push_answer(written, lines)
}
