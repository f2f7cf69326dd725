//! Rows on a real folder of mail, for `answers`.

use crate::calls::{Called, Fault, Shown, call_all, push_answer};
use crate::real_folder::{RealFolder, joined};
use nm_base::{Failed, Text};
use nm_maildir::{FolderMail, Got, Listing, MailError, MailFolder, Maildir, Renamed};
use rows::{Lines, Row, RowError, cut, named, number_of, path_of, value_of};
use std::alloc::Global;

/// A call of a folder of mail.
#[derive(Clone, Copy)]
enum FolderCall {
    Open,
    /// Opens what is not below the folder of the row.
    OpenElsewhere,
    List,
    Read,
    Rename,
    Faults,
}

const CALLS: [(&[u8], FolderCall); 6] = [
    (b"open", FolderCall::Open),
    (b"open-elsewhere", FolderCall::OpenElsewhere),
    (b"list", FolderCall::List),
    (b"read", FolderCall::Read),
    (b"rename", FolderCall::Rename),
    (b"faults", FolderCall::Faults),
];

type Mail = FolderMail<HostRuntime>;

/// The mail of a row, and the folder that it opens.
#[derive(Drop)]
struct FolderRow<'a> {
    folder: &'a RealFolder<'a>,
    mail: Mail,
}

pub fn push(folder: &RealFolder<'_>, row: &Row<'_>, lines: &mut Lines) -> Result<(), RowError> {
    let mail = FolderMail::new(folder.rt.clone()?);
    let mut called = FolderRow { folder, mail };
    call_all(&mut called, row, lines)
}

impl Called for FolderRow<'_> {
    fn call(&mut self, call: &[u8], lines: &mut Lines) -> Result<(), RowError> {
        let (name, words) = cut(call, b' ');
        let alloc = self.folder.rt.alloc();
        match named(&CALLS, name)? {
            FolderCall::Open => open(alloc, self.folder.path(), &mut self.mail, words, lines),
            FolderCall::OpenElsewhere => open(alloc, "", &mut self.mail, words, lines),
            FolderCall::List => list(alloc, &mut self.mail, words, lines),
            FolderCall::Read => read(alloc, &mut self.mail, words, lines),
            FolderCall::Rename => rename(alloc, &mut self.mail, words, lines),
            FolderCall::Faults => push_faults(&self.mail, lines),
        }
    }
}

/// Opens what is under the path after that of the folder.
fn open(
    alloc: Global,
    folder: &str,
    mail: &mut Mail,
    path: &[u8],
    lines: &mut Lines,
) -> Result<(), RowError> {
    match joined(alloc, folder, path) {
        Ok(path) => push_opened(mail.open(&path), lines),
        Err(error) => Err(error),
    }
}

fn push_opened(answer: Result<(), Failed>, lines: &mut Lines) -> Result<(), RowError> {
    match answer {
        Ok(()) => lines.push(b"opened"),
        Err(Failed) => lines.push(b"failed"),
    }
    Ok(())
}

fn list(alloc: Global, mail: &mut Mail, path: &[u8], lines: &mut Lines) -> Result<(), RowError> {
    match value_of(alloc, path) {
        Ok(path) => push_answer(mail.list(&path), lines),
        Err(error) => Err(error),
    }
}

/// `PATH MOST`
fn read(alloc: Global, mail: &mut Mail, words: &[u8], lines: &mut Lines) -> Result<(), RowError> {
    let (path, most) = cut(words, b' ');
    let most = number_of(most)?;
    let path = path_of(alloc, path)?;
    push_answer(mail.read(&path, most), lines)
}

/// `PATH PATH`
fn rename(alloc: Global, mail: &mut Mail, words: &[u8], lines: &mut Lines) -> Result<(), RowError> {
    let (from, to) = cut(words, b' ');
    let from = path_of(alloc, from)?;
    let to = path_of(alloc, to)?;
    push_answer(mail.rename(&from, &to), lines)
}

fn push_faults(mail: &Mail, lines: &mut Lines) -> Result<(), RowError> {
    lines.push_number(mail.faults());
    Ok(())
}

/// The names of folders, with `/` after each, and then those of files.
impl Shown for Listing {
    fn push(&self, lines: &mut Lines) {
        lines.push(b"listed");
        push_names(self.dirs.as_slice(), b"/", lines);
        push_names(self.files.as_slice(), b"", lines);
    }
}

fn push_names(names: &[Text], end: &[u8], lines: &mut Lines) {
    'names: for name in names {
        lines.push_after_blank(name.as_bytes());
        lines.push(end);
    }
}

impl Shown for Got {
    fn push(&self, lines: &mut Lines) {
        match self {
            Got::Found(bytes) => {
                lines.push(b"found");
                lines.push_after_blank(bytes.as_slice());
            }
            Got::Missing => lines.push(b"missing"),
            Got::TooLong => lines.push(b"too long"),
        }
    }
}

impl Shown for Renamed {
    fn push(&self, lines: &mut Lines) {
        lines.push(match self {
            Renamed::Moved => b"moved",
            Renamed::Missing => b"missing",
            Renamed::Exists => b"exists",
        });
    }
}

impl Fault for MailError {
    fn told(self) -> Result<&'static [u8], RowError> {
        match self {
            MailError::Failed => Ok(b"failed"),
            MailError::NoMemory => Err(RowError::NoMemory),
        }
    }
}
