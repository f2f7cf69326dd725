//! The disk of `notmuch`: the files `head`, `a` and `b` of a folder of the system.

ghost use Rattle.std.specs.Prelude.{◌≤◌, ◌+◌, None, IfOk, OnOk, length};
ghost use Rattle.nm_base.specs.Limits.{max_count};

use crate::file_io::{DiskError, DiskFile, lock_folder, make_head, open_or_make};
use crate::{Disk, DiskFolder, FileNo};
use nm_base::{Failed, Text};
use nm_faults::Faults;
use std::fs;

/// A disk over three files of a folder, which it holds by a lock as long as it lives. Its bytes are not known. Each call that
/// reads, writes or syncs fails until a folder was opened.
#[derive(Drop)]
pub struct FileDisk {
    rt: HostRuntime,
    /// None as long as no folder was opened.
    folder: Option<HeldFolder>,
    moments: u64,
    faults: Faults,
}

impl FileDisk {
    /// No folder is opened yet.
    pub fn new(rt: HostRuntime) -> FileDisk {
        FileDisk {
            rt,
            folder: None,
            moments: 0,
            faults: Faults::new(),
        }
    }
}

/// A folder that is held, and its files.
#[derive(Drop)]
struct HeldFolder {
    lock: fs::File,
    files: OpenFiles,
}

/// The three files, open.
#[derive(Drop)]
struct OpenFiles {
    head: DiskFile,
    bank_a: DiskFile,
    bank_b: DiskFile,
}

impl OpenFiles {
    fn file(&mut self, file: FileNo) -> &mut DiskFile {
        match file {
            FileNo::Head => &mut self.head,
            FileNo::BankA => &mut self.bank_a,
            FileNo::BankB => &mut self.bank_b,
        }
    }

    fn sync(&mut self) -> Result<(), DiskError> {
        self.head.sync()?;
        self.bank_a.sync()?;
        self.bank_b.sync()
    }
}

/// Makes what is missing, and opens all.
fn open_folder(rt: &HostRuntime, folder: &str) -> Result<HeldFolder, DiskError> {
    let alloc = rt.alloc();
    let lock = lock_folder(rt, folder)?;
    let head = format!(in alloc; "{folder}/head")?;
    make_head(rt, alloc, folder, head.as_str())?;
    let head = open_or_make(rt, head.as_str())?;
    let bank_a = open_or_make(rt, format!(in alloc; "{folder}/a")?.as_str())?;
    let bank_b = open_or_make(rt, format!(in alloc; "{folder}/b")?.as_str())?;
    lock.sync_all()?;
    Ok(HeldFolder {
        lock,
        files: OpenFiles {
            head,
            bank_a,
            bank_b,
        },
    })
}

/// The files, where a folder was opened.
fn opened(folder: &mut Option<HeldFolder>) -> Result<&mut OpenFiles, DiskError> {
    match folder {
        Some(folder) => Ok(&mut folder.files),
        None => Err(DiskError),
    }
}

fn file_len(folder: &mut Option<HeldFolder>, file: FileNo) -> Result<u64, DiskError> {
    opened(folder)?.file(file).len()
}

fn read_file(
    folder: &mut Option<HeldFolder>,
    file: FileNo,
    at: u64,
    into: &mut [u8],
) -> Result<usize, DiskError>
    ensures { IfOk result (λ n. (n ≤ length into.old) × (at + n ≤ max_count)) }
{
    opened(folder)?.file(file).read(at, into)
}

fn write_file(
    folder: &mut Option<HeldFolder>,
    file: FileNo,
    at: u64,
    bytes: &[u8],
) -> Result<(), DiskError>
    ensures { OnOk result (at + length bytes.now ≤ max_count) }
{
    opened(folder)?.file(file).write(at, bytes)
}

fn sync_files(folder: &mut Option<HeldFolder>) -> Result<(), DiskError> {
    opened(folder)?.sync()
}

impl Disk for FileDisk {
    ghost observed = { λ d. record { told = None; clock = d.moments; faults = d.faults } };

    ghost reads_an_image = { λ d. tt };

    fn len(&mut self, file: FileNo) -> Result<u64, Failed> {
        match file_len(&mut self.folder, file) {
            Ok(len) => Ok(len),
            Err(DiskError) => Err(self.faults.failed()),
        }
    }

    fn read_at(&mut self, file: FileNo, at: u64, into: &mut [u8]) -> Result<usize, Failed> {
        match read_file(&mut self.folder, file, at, into) {
            Ok(n) => Ok(n),
            Err(DiskError) => Err(self.faults.failed()),
        }
    }

    fn write_at(&mut self, file: FileNo, at: u64, bytes: &[u8]) -> Result<(), Failed> {
        self.moments = self.moments.saturating_add(1);
        match write_file(&mut self.folder, file, at, bytes) {
            Ok(()) => Ok(()),
            Err(DiskError) => Err(self.faults.failed()),
        }
    }

    fn sync(&mut self) -> Result<(), Failed> {
        self.moments = self.moments.saturating_add(1);
        match sync_files(&mut self.folder) {
            Ok(()) => Ok(()),
            Err(DiskError) => Err(self.faults.failed()),
        }
    }

    fn clock(&self) -> u64 {
        self.moments
    }

    fn faults(&self) -> u64 {
        self.faults.count()
    }
}

impl DiskFolder for FileDisk {
    ghost moments_at = { λ d dir. None };

    /// Makes what is missing: the folder, a fresh `head`, and empty banks. Where the folder is held, by another process or
    /// by this one, it fails and touches nothing; where it fails, the folder that was opened stays.
    fn open(&mut self, dir: &Text) -> Result<(), Failed> {
        match open_folder(&self.rt, dir.as_str()) {
            Ok(folder) => {
                self.folder = Some(folder);
                Ok(())
            }
            Err(DiskError) => Err(self.faults.failed()),
        }
    }
}
