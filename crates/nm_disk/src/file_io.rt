//! Making, reading, writing and syncing the files of a folder of the system, for `FileDisk`.

ghost use Rattle.std.specs.Prelude.{◌≡◌, ◌≤◌, ◌<◌, ◌+◌, IfOk, OnOk, length};
ghost use Rattle.nm_base.specs.Limits.{max_count};

use std::alloc::{AllocError, Global};
use std::fs;
use std::fs::{DirBuilder, OpenOptions, TryLockError};
use std::io::{self, ErrorKind};
use std::os::unix::fs::{DirBuilderExt, FileExt, OpenOptionsExt};

/// The bytes of a head on which no index was made yet.
const FRESH_HEAD: [u8; 128] = [0; 128];

/// The index has every word of the mail, so what is made is its owner's alone. What exists keeps its mode.
const FOLDER_MODE: u32 = 0o700;

const FILE_MODE: u32 = 0o600;

/// A call of the system failed, or there was no memory for a path.
#[derive(Drop)]
pub(crate) struct DiskError;

impl From<io::Error> for DiskError {
    fn from(_: io::Error) -> DiskError {
        DiskError
    }
}

impl From<TryLockError> for DiskError {
    fn from(_: TryLockError) -> DiskError {
        DiskError
    }
}

impl From<AllocError> for DiskError {
    fn from(_: AllocError) -> DiskError {
        DiskError
    }
}

/// An open file, and whether it may have been written since the last sync that went well. One that was just opened may: a process
/// before this one may have written it and not synced it.
#[derive(Drop)]
pub(crate) struct DiskFile {
    file: fs::File,
    may_be_written: bool,
}

/// Opens the folder, which is made where it is missing, and locks it against other processes.
pub(crate) fn lock_folder(rt: &HostRuntime, folder: &str) -> Result<fs::File, DiskError> {
    match DirBuilder::new().mode(FOLDER_MODE).create(rt, folder) {
        Ok(()) => {}
        Err(error) if error.kind() == ErrorKind::AlreadyExists => {}
        Err(error) => return Err(DiskError::from(error)),
    }
    let held = fs::open(rt, folder)?;
    held.try_lock()?;
    Ok(held)
}

/// Makes a fresh head where there is none: as another file, which gets its name once it is on the disk. The folder has its name on the
/// disk before, since it may just have been made.
pub(crate) fn make_head(
    rt: &HostRuntime,
    alloc: Global,
    folder: &str,
    head: &str,
) -> Result<(), DiskError> {
    match fs::symlink_metadata(rt, head) {
        Ok(_) => return Ok(()),
        Err(error) if error.kind() == ErrorKind::NotFound => {}
        Err(error) => return Err(DiskError::from(error)),
    }
    sync_folder(rt, format!(in alloc; "{folder}/..")?.as_str())?;
    let fresh = format!(in alloc; "{folder}/head.tmp")?;
    let file = OpenOptions::new()
        .write(true)
        .create(true)
        .truncate(true)
        .mode(FILE_MODE)
        .open(rt, fresh.as_str())?;
    write_all(&file, 0, &FRESH_HEAD)?;
    file.sync_all()?;
    fs::rename(rt, fresh.as_str(), head)?;
    Ok(())
}

fn sync_folder(rt: &HostRuntime, folder: &str) -> Result<(), DiskError> {
    fs::open(rt, folder)?.sync_all()?;
    Ok(())
}

/// Opens a file of the folder for reading and writing; it is made where it is missing.
pub(crate) fn open_or_make(rt: &HostRuntime, path: &str) -> Result<DiskFile, DiskError> {
    let file = OpenOptions::new()
        .read(true)
        .write(true)
        .create(true)
        .truncate(false)
        .mode(FILE_MODE)
        .open(rt, path)?;
    Ok(DiskFile {
        file,
        may_be_written: true,
    })
}

impl DiskFile {
    pub(crate) fn len(&self) -> Result<u64, DiskError> {
        Ok(self.file.metadata()?.len())
    }

    /// Reads from the place on, as far as the file goes and there is room.
    pub(crate) fn read(&self, at: u64, into: &mut [u8]) -> Result<usize, DiskError>
        ensures { IfOk result (λ n. (n ≤ length into.old) × (at + n ≤ max_count)) }
    {
        if at.checked_add(into.len() as u64).is_none() {
            return Ok(0);
        }
        read_all(&self.file, at, into)
    }

    pub(crate) fn write(&mut self, at: u64, bytes: &[u8]) -> Result<(), DiskError>
        ensures { OnOk result (at + length bytes.now ≤ max_count) }
    {
        if at.checked_add(bytes.len() as u64).is_none() {
            return Err(DiskError);
        }
        self.may_be_written = true;
        write_all(&self.file, at, bytes)
    }

    /// A file that was synced and not written since is left alone.
    pub(crate) fn sync(&mut self) -> Result<(), DiskError> {
        if self.may_be_written {
            self.file.sync_data()?;
            self.may_be_written = false;
        }
        Ok(())
    }
}

fn read_all(file: &fs::File, at: u64, into: &mut [u8]) -> Result<usize, DiskError>
    requires { at + length into.old ≤ max_count }
    ensures { IfOk result (λ n. n ≤ length into.old) }
{
    let mut done = 0;
    'pieces: while done < into.len() {
        let n = read_once(file, at + done as u64, &mut into[done..])?;
        if n == 0 {
            break;
        }
        done += n;
    }
    Ok(done)
}

/// One read; one that a signal interrupts is tried again.
fn read_once(file: &fs::File, at: u64, into: &mut [u8]) -> Result<usize, DiskError>
    ensures { IfOk result (λ n. n ≤ length into.old) }
{
    'tries: for _ in 0..u64::MAX {
        match file.read_at(into, at) {
            Ok(n) => return Ok(n),
            Err(error) => {
                if error.kind() != ErrorKind::Interrupted {
                    return Err(DiskError);
                }
            }
        }
    }
    Err(DiskError)
}

fn write_all(file: &fs::File, at: u64, bytes: &[u8]) -> Result<(), DiskError>
    requires { at + length bytes.now ≤ max_count }
{
    let mut done = 0;
    'pieces: while done < bytes.len() {
        done += write_once(file, at + done as u64, &bytes[done..])?;
    }
    Ok(())
}

/// One write of at least one byte; one that a signal interrupts is tried again.
fn write_once(file: &fs::File, at: u64, piece: &[u8]) -> Result<usize, DiskError>
    ensures count { IfOk result (λ n. n ≤ length piece.now) }
    ensures some { IfOk result (λ n. 0 < n) }
{
    'tries: for _ in 0..u64::MAX {
        match file.write_at(piece, at) {
            Ok(0) => return Err(DiskError),
            Ok(n) => return Ok(n),
            Err(error) => {
                if error.kind() != ErrorKind::Interrupted {
                    return Err(DiskError);
                }
            }
        }
    }
    Err(DiskError)
}
