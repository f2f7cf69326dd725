//! Opening, listing, reading and renaming in a folder of the system, for `FolderMail`.

ghost use Rattle.std.specs.Prelude.{IfOk};
ghost use Rattle.nm_maildir.specs.Order.{AreInOrder};

use crate::memory_files::no_names;
use crate::names::into_list;
use crate::{Got, Listing, Renamed};
use nm_base::{MailPath, Many, NoMemory, Text};
use std::alloc::{AllocError, AllocFailed, Global};
use std::collections::BTreeSet;
use std::fs::{self, OpenFile};
use std::io::{self, ErrorKind, Read};
use std::rt::Files;

/// Why a call on a real folder gave nothing.
#[derive(Drop)]
pub(crate) enum FolderError {
    Io,
    NoMemory,
}

impl From<io::Error> for FolderError {
    fn from(error: io::Error) -> FolderError {
        if error.kind() == ErrorKind::OutOfMemory {
            FolderError::NoMemory
        } else {
            FolderError::Io
        }
    }
}

impl From<NoMemory> for FolderError {
    fn from(_: NoMemory) -> FolderError {
        FolderError::NoMemory
    }
}

impl From<AllocError> for FolderError {
    fn from(_: AllocError) -> FolderError {
        FolderError::NoMemory
    }
}

impl<T: Drop> From<AllocFailed<T>> for FolderError {
    fn from(_: AllocFailed<T>) -> FolderError {
        FolderError::NoMemory
    }
}

/// Whether a folder is there, which may be read; it may be a link to one.
pub(crate) fn can_be_listed<R: Files + AllocGlobal + Clone + Drop>(rt: &R, root: &Text) -> bool {
    fs::read_dir(rt, root.as_str()).is_ok()
}

/// The names in a folder. A link is neither a folder nor a file.
pub(crate) fn names_at<R: Files + AllocGlobal + Clone + Drop>(
    rt: &R,
    root: &Text,
    dir: &Text,
) -> Result<Listing, FolderError>
    ensures { IfOk result (λ listing. AreInOrder listing) }
{
    let alloc = rt.alloc();
    let place = full_path(alloc, root.as_str(), dir.as_str())?;
    if !is_folder(rt, dir, place.as_str())? {
        return Ok(no_names(alloc));
    }
    let mut dirs = BTreeSet::new(alloc);
    let mut files = BTreeSet::new(alloc);
    'entries: for entry in fs::read_dir(rt, place.as_str())? {
        let entry = entry?;
        let Some(file_type) = if_exists(entry.file_type())? else {
            continue;
        };
        let name = Text::of(alloc, entry.file_name())?;
        if file_type.is_dir() {
            dirs.insert(name)?;
        } else if file_type.is_file() {
            files.insert(name)?;
        }
    }
    let dirs = into_list(alloc, dirs)?;
    let files = into_list(alloc, files)?;
    Ok(Listing { dirs, files })
}

/// The bytes of a file, where it has at most `max`.
pub(crate) fn bytes_in<R: Files + AllocGlobal>(
    rt: &R,
    root: &Text,
    path: &MailPath,
    max: u64,
) -> Result<Got, FolderError> {
    let alloc = rt.alloc();
    let place = full_path(alloc, root.as_str(), path.text().as_str())?;
    let Some(len) = file_len(rt, place.as_str())? else {
        return Ok(Got::Missing);
    };
    if len > max {
        return Ok(Got::TooLong);
    }
    match fs::open(rt, place.as_str()) {
        Ok(file) => read_up_to(alloc, file, len, max),
        Err(error) if error.kind() == ErrorKind::NotFound => Ok(Got::Missing),
        Err(error) => Err(FolderError::from(error)),
    }
}

/// Reads a file that may have grown since its length was taken.
pub(crate) fn read_up_to<F: Read + Drop>(
    alloc: Global,
    file: F,
    len: u64,
    max: u64,
) -> Result<Got, FolderError> {
    let mut bytes = Vec::with_capacity(alloc, len as usize)?;
    let mut front = file.take(max.saturating_add(1));
    front.read_to_end(&mut bytes)?;
    if bytes.len() as u64 > max {
        return Ok(Got::TooLong);
    }
    Ok(Got::Found(Many::from_vec(bytes)))
}

/// Renames a file. The target is tested for first, since the system would write over it.
pub(crate) fn rename_in<R: Files + AllocGlobal>(
    rt: &R,
    root: &Text,
    from: &MailPath,
    to: &MailPath,
) -> Result<Renamed, FolderError> {
    let alloc = rt.alloc();
    let source = full_path(alloc, root.as_str(), from.text().as_str())?;
    let target = full_path(alloc, root.as_str(), to.text().as_str())?;
    if file_len(rt, source.as_str())?.is_none() {
        return Ok(Renamed::Missing);
    }
    if if_exists(fs::symlink_metadata(rt, target.as_str()))?.is_some() {
        return Ok(Renamed::Exists);
    }
    fs::rename(rt, source.as_str(), target.as_str())?;
    Ok(Renamed::Moved)
}

/// Has the names in a folder on the device. A folder that is missing has none. Some file systems, as those over a network, offer
/// no sync of a folder; that is no failure, since nothing more can be asked.
pub(crate) fn sync_names<R: Files + AllocGlobal>(
    rt: &R,
    root: &Text,
    dir: &Text,
) -> Result<(), FolderError> {
    let place = full_path(rt.alloc(), root.as_str(), dir.as_str())?;
    let Some(folder) = if_exists(fs::open(rt, place.as_str()))? else {
        return Ok(());
    };
    match folder.sync_all() {
        Ok(()) => Ok(()),
        Err(error) if is_not_offered(&error) => Ok(()),
        Err(error) => Err(FolderError::from(error)),
    }
}

fn is_not_offered(error: &io::Error) -> bool {
    error.kind() == ErrorKind::InvalidInput || error.kind() == ErrorKind::Unsupported
}

/// Whether the folder is there. The root itself may be a link, no folder below it may.
fn is_folder<R: Files>(rt: &R, dir: &Text, place: &str) -> Result<bool, FolderError> {
    let found = if dir.as_str().is_empty() {
        fs::metadata(rt, place)
    } else {
        fs::symlink_metadata(rt, place)
    };
    match if_exists(found)? {
        Some(metadata) => Ok(metadata.is_dir()),
        None => Ok(false),
    }
}

/// The length of a file, or none where no file is there. A link is no file.
fn file_len<R: Files>(rt: &R, place: &str) -> Result<Option<u64>, FolderError> {
    match if_exists(fs::symlink_metadata(rt, place))? {
        Some(metadata) if metadata.is_file() => Ok(Some(metadata.len())),
        _ => Ok(None),
    }
}

/// What is known of a thing, or none where it is not there.
fn if_exists<T: Drop>(found: io::Result<T>) -> Result<Option<T>, FolderError> {
    match found {
        Ok(known) => Ok(Some(known)),
        Err(error) if error.kind() == ErrorKind::NotFound => Ok(None),
        Err(error) => Err(FolderError::from(error)),
    }
}

/// The path of the system for a path below the root.
fn full_path(alloc: Global, root: &str, path: &str) -> Result<String, FolderError> {
    let mut place = String::from_str(alloc, root)?;
    if !path.is_empty() {
        place.push('/')?;
        place.push_str(path)?;
    }
    Ok(place)
}
