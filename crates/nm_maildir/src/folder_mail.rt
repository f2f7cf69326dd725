//! A folder of the system as a `Maildir`, as `main` makes it and the top call opens it.

ghost use Rattle.std.specs.Prelude.{None, IfOk};
ghost use Rattle.nm_faults.specs.Faults.{Counts};
ghost use Rattle.nm_maildir.specs.Observed.{is_mail_fault};
ghost use Rattle.nm_maildir.specs.Order.{AreInOrder};

use crate::folder_io::{FolderError, bytes_in, can_be_listed, names_at, rename_in, sync_names};
use crate::{Got, Listing, MailError, MailFolder, Maildir, Renamed};
use nm_base::{Copies, Failed, MailPath, Text};
use nm_faults::Faults;
use std::alloc::Global;
use std::collections::BTreeSet;
use std::rt::Files;

/// A real folder of mail. It follows no link below its root, fails at a name that is not UTF-8, and neither its tree
/// nor what was read is known. Each call fails until a folder was opened.
#[derive(Drop)]
pub struct FolderMail<R> {
    rt: R,
    /// None as long as no folder was opened.
    opened: Option<OpenFolder>,
    faults: Faults,
}

/// A folder that was opened.
#[derive(Drop)]
struct OpenFolder {
    root: Text,
    /// The folders below it whose names changed since they were synced.
    unsynced: BTreeSet<Text>,
}

impl<R> FolderMail<R> {
    /// No folder is opened yet.
    pub fn new(rt: R) -> FolderMail<R> {
        FolderMail {
            rt,
            opened: None,
            faults: Faults::new(),
        }
    }
}

/// Counts a failure of the system; running out of memory is none.
fn count_fault(faults: &mut Faults, error: FolderError) -> MailError
    ensures { Counts (is_mail_fault result) faults.old faults.new }
{
    match error {
        FolderError::Io => {
            faults.add();
            MailError::Failed
        }
        FolderError::NoMemory => MailError::NoMemory,
    }
}

/// The root, where a folder was opened.
fn root_of(opened: &Option<OpenFolder>) -> Result<&Text, FolderError> {
    match opened {
        Some(folder) => Ok(&folder.root),
        None => Err(FolderError::Io),
    }
}

fn names_below<R: Files + AllocGlobal + Clone + Drop>(
    rt: &R,
    opened: &Option<OpenFolder>,
    dir: &Text,
) -> Result<Listing, FolderError>
    ensures { IfOk result (λ listing. AreInOrder listing) }
{
    names_at(rt, root_of(opened)?, dir)
}

fn bytes_below<R: Files + AllocGlobal>(
    rt: &R,
    opened: &Option<OpenFolder>,
    path: &MailPath,
    max: u64,
) -> Result<Got, FolderError> {
    bytes_in(rt, root_of(opened)?, path, max)
}

/// The folders of both names are noted first, so that no name is changed without a note.
fn rename_below<R: Files + AllocGlobal>(
    rt: &R,
    opened: &mut Option<OpenFolder>,
    from: &MailPath,
    to: &MailPath,
) -> Result<Renamed, FolderError> {
    let Some(folder) = opened else {
        return Err(FolderError::Io);
    };
    note_folder(rt.alloc(), &mut folder.unsynced, from)?;
    note_folder(rt.alloc(), &mut folder.unsynced, to)?;
    rename_in(rt, &folder.root, from, to)
}

/// Notes the folder that a file is in.
fn note_folder(
    alloc: Global,
    folders: &mut BTreeSet<Text>,
    path: &MailPath,
) -> Result<(), FolderError> {
    let Some((dir, _)) = path.text().as_str().rsplit_once('/') else {
        return Ok(());
    };
    folders.insert(Text::of(alloc, dir)?)?;
    Ok(())
}

/// Notes the folders that the files are in.
fn note_folders(
    alloc: Global,
    folders: &mut BTreeSet<Text>,
    files: &[MailPath],
) -> Result<(), FolderError> {
    'files: for file in files {
        note_folder(alloc, folders, file)?;
    }
    Ok(())
}

/// Syncs the folders that were noted, and those of these files. Where one fails all are noted as before.
fn sync_below<R: Files + AllocGlobal>(
    rt: &R,
    opened: &mut Option<OpenFolder>,
    came: &[MailPath],
    went: &[MailPath],
) -> Result<(), FolderError> {
    let Some(folder) = opened else {
        return Err(FolderError::Io);
    };
    note_folders(rt.alloc(), &mut folder.unsynced, came)?;
    note_folders(rt.alloc(), &mut folder.unsynced, went)?;
    'folders: for dir in folder.unsynced.iter() {
        sync_names(rt, &folder.root, dir)?;
    }
    folder.unsynced.clear();
    Ok(())
}

impl<R: Files + AllocGlobal + Clone + Drop> Maildir for FolderMail<R> {
    ghost observed = { λ s. record { tree = None; reads = None; faults = s.faults } };

    fn list(&mut self, dir: &Text) -> Result<Listing, MailError> {
        match names_below(&self.rt, &self.opened, dir) {
            Ok(listing) => Ok(listing),
            Err(error) => Err(count_fault(&mut self.faults, error)),
        }
    }

    fn read(&mut self, path: &MailPath, max: u64) -> Result<Got, MailError> {
        match bytes_below(&self.rt, &self.opened, path, max) {
            Ok(got) => Ok(got),
            Err(error) => Err(count_fault(&mut self.faults, error)),
        }
    }

    fn rename(&mut self, from: &MailPath, to: &MailPath) -> Result<Renamed, MailError> {
        match rename_below(&self.rt, &mut self.opened, from, to) {
            Ok(renamed) => Ok(renamed),
            Err(error) => Err(count_fault(&mut self.faults, error)),
        }
    }

    fn sync(&mut self, came: &[MailPath], went: &[MailPath]) -> Result<(), MailError> {
        match sync_below(&self.rt, &mut self.opened, came, went) {
            Ok(()) => Ok(()),
            Err(error) => Err(count_fault(&mut self.faults, error)),
        }
    }

    fn faults(&self) -> u64 {
        self.faults.count()
    }
}

impl<R: Files + AllocGlobal + Clone + Drop> MailFolder for FolderMail<R> {
    ghost tree_at = { λ s dir. None };

    /// Fails where no folder is there or it may not be read, and the one that was opened stays.
    fn open(&mut self, dir: &Text) -> Result<(), Failed> {
        if !can_be_listed(&self.rt, dir) {
            return Err(self.faults.failed());
        }
        let Ok(root) = dir.copy() else {
            return Err(self.faults.failed());
        };
        let unsynced = BTreeSet::new(self.rt.alloc());
        self.opened = Some(OpenFolder { root, unsynced });
        Ok(())
    }
}
