//! Rows on drills, for `answers`: what is in the store of one, or its script.

ghost use Rattle.std.specs.Prelude.{◌≤◌, IfOk};

use nm_base::{Copies, MailPath, Many, Text};
use nm_drill::{drill_script, drill_tree};
use nm_maildir::{Got, Listing, MailError, Maildir, StillTree};
use rows::{Lines, Row, RowError, value_of};
use std::alloc::Global;

/// The most bytes that a mail of a row has.
const MAX_MAIL: u64 = 65_536;

/// What is at the path in a store of as many mails as `?` says: a mail is printed whole, a folder by the names in it.
pub fn push_place(
    alloc: Global,
    lines: &mut Lines,
    row: &Row<'_>,
    path: &[u8],
) -> Result<(), RowError> {
    let count = count_of(row)?;
    let path = value_of(alloc, path)?;
    let mut tree = drill_tree(alloc, count)?;
    push_mail_or_names(lines, &mut tree, &path)
}

fn count_of(row: &Row<'_>) -> Result<u32, RowError>
    ensures { IfOk result (λ count. (1 ≤ count) × (count ≤ 20000)) }
{
    match row.number(b"?", 0)? {
        count @ 1..=20_000 => Ok(count as u32),
        _ => Err(RowError::Broken("a drill has 1 to 20,000 mails")),
    }
}

fn push_mail_or_names(
    lines: &mut Lines,
    tree: &mut StillTree,
    path: &Text,
) -> Result<(), RowError> {
    if let Some(mail) = mail_at(tree, path)? {
        lines.line(mail.as_slice());
        return Ok(());
    }
    match tree.list(path) {
        Ok(listing) => push_names(lines, &listing),
        Err(error) => return Err(row_error(error)),
    }
    Ok(())
}

/// The mail that is there, if one does.
fn mail_at(tree: &mut StillTree, path: &Text) -> Result<Option<Many<u8>>, RowError> {
    let Ok(path) = MailPath::new(path.copy()?) else {
        return Ok(None);
    };
    match tree.read(&path, MAX_MAIL) {
        Ok(Got::Found(mail)) => Ok(Some(mail)),
        Ok(Got::Missing | Got::TooLong) => Ok(None),
        Err(error) => Err(row_error(error)),
    }
}

fn row_error(error: MailError) -> RowError {
    match error {
        MailError::NoMemory => RowError::NoMemory,
        MailError::Failed => RowError::Broken("a call of the store failed"),
    }
}

/// A line for each name, that of a folder with `/` after it; or a dash where there is none.
fn push_names(lines: &mut Lines, listing: &Listing) {
    if listing.dirs.is_empty() && listing.files.is_empty() {
        lines.line(b"-");
    }
    'dirs: for dir in listing.dirs.as_slice() {
        lines.line_of(dir.as_bytes(), b"/");
    }
    'files: for file in listing.files.as_slice() {
        lines.line(file.as_bytes());
    }
}

/// The script as it is.
pub fn push_drill_script(alloc: Global, lines: &mut Lines) -> Result<(), RowError> {
    let script = drill_script(alloc)?;
    lines.line(script.as_slice());
    Ok(())
}
