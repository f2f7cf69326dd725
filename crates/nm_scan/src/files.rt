//! Reading the files of a batch one after the other, as far as the batch goes, for `parts`.

ghost use Rattle.std.specs.Prelude.{◌≡◌, ◌⊎◌, ◌∷◌, [], ◌++◌, ◌-◌, ◌<◌, length, IfErr, IfOk, IfSome, MatchOption, Ok, OnErr, OnOk};
ghost use Rattle.std.specs.Vec.Iter.{into_iter_items, into_iter_len};
ghost use Rattle.nm_maildir.specs.Observed.{HasMailCause};
ghost use Rattle.nm_maildir.specs.declared.answers.Got.{Got};
ghost use Rattle.nm_scan.specs.Batches.{found_len, len_at};
ghost use Rattle.nm_scan.specs.Found.{HasFound, IsClosed, ReadsOn, lacks_all};
ghost use Rattle.nm_scan.specs.FileReads.{AsksOnce};

use nm_base::{MailPath, Many};
use nm_maildir::{Got, MailError, Maildir};
use std::alloc::Global;
use std::vec::IntoIter;

/// The most bytes of a mail file.
const MAX_BYTES: u64 = 67_108_864;

/// The answers that close a batch.
const FULL_ANSWERS: usize = 256;

/// The bytes that close a batch.
const FULL_BYTES: u64 = 67_108_864;

/// What a batch lacks until it is full.
#[derive(Drop)]
pub(crate) struct Lacks {
    pub answers: usize,
    pub bytes: u64,
}

impl Lacks {
    pub(crate) fn all() -> Lacks
        ensures { result ≡ lacks_all }
    {
        Lacks {
            answers: FULL_ANSWERS,
            bytes: FULL_BYTES,
        }
    }

    /// An answer with n bytes has come.
    fn take(&mut self, len: u64)
        ensures answers { self.new.answers ≡ self.old.answers - 1 }
        ensures bytes { self.new.bytes ≡ self.old.bytes - len }
    {
        self.answers = self.answers.saturating_sub(1);
        self.bytes = self.bytes.saturating_sub(len);
    }
}

/// Files that were read one after the other, and how the reading ended.
#[derive(Drop)]
pub(crate) struct Part {
    pub found: Many<(MailPath, Got)>,
    pub read: Result<(), MailError>,
}

/// Reads the next files of a batch, `most` at most, as far as the batch goes.
pub(crate) fn read_part<M: Maildir>(
    alloc: Global,
    mail: &mut M,
    paths: &mut IntoIter<MailPath, Global>,
    lacks: &mut Lacks,
    most: usize,
) -> Part
    requires whole { into_iter_len paths.old ≡ length (into_iter_items paths.old) }
    requires some { 0 < most }
    ensures reads { ReadsOn (M.observed mail.old) (M.observed mail.new) (into_iter_items paths.old) (into_iter_items paths.new)
        lacks.old lacks.new result.found (Ok tt) result.read }
    ensures closed { OnOk result.read (result.found ≡ [] → IsClosed (into_iter_items paths.new) lacks.new) }
    ensures whole { into_iter_len paths.new ≡ length (into_iter_items paths.new) }
{
    let mut found = Many::new(alloc);
    let read = read_files(mail, paths, lacks, most, &mut found);
    Part { found, read }
}

/// Reads the next files. Says what was found.
fn read_files<M: Maildir>(
    mail: &mut M,
    paths: &mut IntoIter<MailPath, Global>,
    lacks: &mut Lacks,
    most: usize,
    found: &mut Many<(MailPath, Got)>,
) -> Result<(), MailError>
    requires none { found.old ≡ [] }
    requires whole { into_iter_len paths.old ≡ length (into_iter_items paths.old) }
    requires some { 0 < most }
    ensures reads { ReadsOn (M.observed mail.old) (M.observed mail.new) (into_iter_items paths.old) (into_iter_items paths.new)
        lacks.old lacks.new found.new (Ok tt) result }
    ensures closed { OnOk result (found.new ≡ [] → IsClosed (into_iter_items paths.new) lacks.new) }
    ensures whole { into_iter_len paths.new ≡ length (into_iter_items paths.new) }
{
    let mut left = most;
    'files: while let Some(path) = next_path(paths, lacks, left) {
        match read_next(mail, path, found) {
            Ok(len) => lacks.take(len),
            Err(error) => return Err(error),
        }
        left = left.saturating_sub(1);
    }
    Ok(())
}

/// The next path of a batch, of which n may still be read.
fn next_path(paths: &mut IntoIter<MailPath, Global>, lacks: &Lacks, left: usize) -> Option<MailPath>
    requires whole { into_iter_len paths.old ≡ length (into_iter_items paths.old) }
    ensures next { MatchOption result
        ((into_iter_items paths.new ≡ into_iter_items paths.old) × ((left ≡ 0) ⊎ IsClosed (into_iter_items paths.old) lacks.now))
        (λ path. (into_iter_items paths.old ≡ path ∷ into_iter_items paths.new) × (0 < left) × (0 < lacks.now.answers) × (0 < lacks.now.bytes)) }
    ensures whole { into_iter_len paths.new ≡ length (into_iter_items paths.new) }
{
    if left == 0 || lacks.answers == 0 || lacks.bytes == 0 {
        return None;
    }
    paths.next()
}

/// Reads one file more, and keeps what is found. Says how many bytes these are.
fn read_next<M: Maildir>(
    mail: &mut M,
    path: MailPath,
    found: &mut Many<(MailPath, Got)>,
) -> Result<u64, MailError>
    ensures ok { IfOk result (λ _. (got : Got) × (found.new ≡ found.old ++ (path, got) ∷ [])
        × HasFound (M.observed mail.old) (M.observed mail.new) ((path, got) ∷ [])) }
    ensures bytes { IfOk result (λ len. IfSome (M.observed mail.old).tree (λ t. len ≡ len_at t path)) }
    ensures err { IfErr result (λ _. AsksOnce (M.observed mail.old) (M.observed mail.new) path) }
    ensures same { OnErr result (found.new ≡ found.old) }
    ensures cause { HasMailCause (M.observed mail.old).faults (M.observed mail.new).faults result }
{
    let got = mail.read(&path, MAX_BYTES)?;
    let len = found_len(&got);
    found.push((path, got))?;
    Ok(len)
}

/// How many bytes a read found.
fn found_len(got: &Got) -> u64
    ensures { result ≡ found_len got.now }
{
    match got {
        Got::Missing | Got::TooLong => 0,
        Got::Found(bytes) => bytes.len() as u64,
    }
}
