//! Rows on the reply of `new`, for `answers`: from the numbers that it tells and the files that were passed over.

use nm_base::{MailPath, Many, Skip};
use nm_log::new_text;
use nm_model_answer::NewReport;
use rows::{Row, RowError, named, path_of};
use std::alloc::Global;

const MARKS: [&[u8]; 8] = [
    b"added",
    b"removed",
    b"messages-added",
    b"messages-removed",
    b"not-mail",
    b"missing",
    b"too-long",
    b"=",
];

/// Why a file was passed over, by the mark of its line.
const SKIPS: [(&[u8], Skip); 3] = [
    (b"not-mail", Skip::NotMail),
    (b"missing", Skip::Missing),
    (b"too-long", Skip::TooLong),
];

/// The reply that tells this.
pub fn answer(alloc: Global, row: &Row<'_>) -> Result<Vec<u8>, RowError> {
    row.has_only(&MARKS)?;
    let report = report(alloc, row)?;
    Ok(new_text(alloc, &report)?.into_vec())
}

fn report(alloc: Global, row: &Row<'_>) -> Result<NewReport, RowError> {
    let added = row.number(b"added", 0)?;
    let removed = row.number(b"removed", 0)?;
    let born = row.number(b"messages-added", 0)?;
    let died = row.number(b"messages-removed", 0)?;
    let mut skipped = Many::new(alloc);
    add_skips(alloc, &mut skipped, row)?;
    Ok(NewReport {
        added,
        removed,
        born,
        died,
        skipped,
    })
}

fn add_skips(
    alloc: Global,
    skipped: &mut Many<(MailPath, Skip)>,
    row: &Row<'_>,
) -> Result<(), RowError> {
    'lines: for line in row.lines.as_slice() {
        if let Ok(skip) = named(&SKIPS, line.mark) {
            add_skip(alloc, skipped, line.bytes.as_slice(), skip)?;
        }
    }
    Ok(())
}

fn add_skip(
    alloc: Global,
    skipped: &mut Many<(MailPath, Skip)>,
    at: &[u8],
    skip: Skip,
) -> Result<(), RowError> {
    let path = path_of(alloc, at)?;
    Ok(skipped.push((path, skip))?)
}
