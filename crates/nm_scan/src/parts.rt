//! A batch in parts: while workers find which files of one are mail, the caller reads the next. `read_batch` has it done.

ghost use Rattle.std.specs.Prelude.{◌≡◌, ℕ, [], ◌<◌, ◌≤◌, length, Err, IfErr, IfOk, IsErr, Ok, OnOk};
ghost use Rattle.std.specs.List.{AllZip};
ghost use Rattle.std.specs.Vec.Iter.{into_iter_items, into_iter_len};
ghost use Rattle.nm_maildir.specs.Observed.{HasMailCause};
ghost use Rattle.nm_scan.specs.Found.{HasClassifiedBatch, IsClassified, IsClosed, ReadsOn, StopsClassifying};

use crate::classes::{Classified, Classifying, classify_all, take_part};
use crate::crew::Crew;
use crate::files::{Lacks, Part, read_part};
use nm_base::{MailPath, Many, NoMemory};
use nm_maildir::{MailError, Maildir};
use nm_workers::{Gate, map_jobs_beside};
use std::alloc::Global;
use std::sync::Wait;
use std::thread::Threads;
use std::vec::IntoIter;

/// The files of the first part, where there are workers beside the reader: so few that they soon have something to do. Each further
/// part is twice as large, so four make a batch.
const FIRST_PART: usize = 18;

/// No part is larger.
const MAX_PART: usize = 256;

/// Reads the next batch part by part, and finds which of its files are mail; each is listed in `all`, in order. Where the reading
/// or memory stops it, so are the first of what was read.
pub(crate) fn classify_batch<R: Threads + Wait + Sync, M: Maildir, G: Gate + Sync>(
    crew: &Crew<'_, R, G>,
    mail: &mut M,
    paths: &mut IntoIter<MailPath, Global>,
    all: &mut Vec<Classified>,
) -> Result<(), MailError>
    requires workers { (0 < crew.now.workers) × (crew.now.workers ≤ 16) }
    requires none { all.old.items ≡ [] }
    requires whole { into_iter_len paths.old ≡ length (into_iter_items paths.old) }
    requires some { 0 < length (into_iter_items paths.old) }
    ensures ok { OnOk result (HasClassifiedBatch (M.observed mail.old) (M.observed mail.new) (into_iter_items paths.old) (into_iter_items paths.new) all.new.items) }
    ensures err { IfErr result (λ _. StopsClassifying (M.observed mail.old) (M.observed mail.new) (into_iter_items paths.old) all.new.items) }
    ensures whole { into_iter_len paths.new ≡ length (into_iter_items paths.new) }
    ensures cause { HasMailCause (M.observed mail.old).faults (M.observed mail.new).faults result }
{
    let mut lacks = Lacks::all();
    let mut most = first_part(crew.workers);
    let mut part = read_part(crew.alloc, mail, paths, &mut lacks, most);
    'parts: while part.found.len() > 0 {
        most = next_part(most);
        let (classified, next) = classify_and_read(crew, &part, mail, paths, &mut lacks, most);
        match take_part(classified, all) {
            Ok(()) => {}
            Err(NoMemory) => return stopped_by_memory(next.read),
        }
        part = next;
    }
    part.read
}

/// The error of a reading whose files could not be reported: its own, if it has one.
fn stopped_by_memory(read: Result<(), MailError>) -> Result<(), MailError>
    ensures err { IsErr result }
    ensures cause { (before now : ℕ) → HasMailCause before now read → HasMailCause before now result }
{
    match read {
        Ok(()) => Err(MailError::NoMemory),
        Err(error) => Err(error),
    }
}

fn first_part(workers: u32) -> usize
    ensures { 0 < result }
{
    if workers < 2 { MAX_PART } else { FIRST_PART }
}

fn next_part(part: usize) -> usize
    requires { 0 < part }
    ensures { 0 < result }
{
    if part < MAX_PART { part * 2 } else { part }
}

/// Finds which files of a part are mail; the caller reads the next part before it helps, where nothing has stopped the reading.
fn classify_and_read<R: Threads + Wait + Sync, M: Maildir, G: Gate + Sync>(
    crew: &Crew<'_, R, G>,
    part: &Part,
    mail: &mut M,
    paths: &mut IntoIter<MailPath, Global>,
    lacks: &mut Lacks,
    most: usize,
) -> (Result<Many<Classified>, NoMemory>, Part)
    requires workers { (0 < crew.now.workers) × (crew.now.workers ≤ 16) }
    requires whole { into_iter_len paths.old ≡ length (into_iter_items paths.old) }
    requires some { 0 < most }
    ensures classified { IfOk result.0 (λ more. AllZip IsClassified part.now.found more) }
    ensures reads { ReadsOn (M.observed mail.old) (M.observed mail.new) (into_iter_items paths.old) (into_iter_items paths.new)
        lacks.old lacks.new result.1.found part.now.read result.1.read }
    ensures closed { OnOk result.1.read (result.1.found ≡ [] → IsClosed (into_iter_items paths.new) lacks.new) }
    ensures whole { into_iter_len paths.new ≡ length (into_iter_items paths.new) }
{
    if let Err(error) = &part.read {
        return (classify_all(crew, &part.found), unread(crew.alloc, *error));
    }
    let (next, classified) = map_jobs_beside(
        crew.rt,
        crew.alloc,
        &Classifying { alloc: crew.alloc },
        &part.found,
        crew.workers,
        crew.gate,
        &mut || -> Part
            requires whole { into_iter_len paths.now ≡ length (into_iter_items paths.now) }
            requires some { 0 < most }
            ensures reads { ReadsOn (M.observed mail.entry.now) (M.observed mail.exit.now) (into_iter_items paths.entry.now) (into_iter_items paths.exit.now)
                lacks.entry.now lacks.exit.now result.found (Ok tt) result.read }
            ensures closed { OnOk result.read (result.found ≡ [] → IsClosed (into_iter_items paths.exit.now) lacks.exit.now) }
            ensures whole { into_iter_len paths.exit.now ≡ length (into_iter_items paths.exit.now) }
        { read_part(crew.alloc, mail, paths, lacks, most) },
    );
    (classified, next)
}

/// No file more: the reading had ended so.
fn unread(alloc: Global, error: MailError) -> Part
    ensures { (result.found ≡ []) × (result.read ≡ Err error) }
{
    Part {
        found: Many::new(alloc),
        read: Err(error),
    }
}
