//! A batch of files of a mail folder: `new_mail` of `nm_writer` has what the index lacks read, batch by batch.

ghost use Rattle.std.specs.Prelude.{◌≡◌, ◌<◌, ◌≤◌, length, IfErr, IfOk};
ghost use Rattle.std.specs.Vec.Iter.{into_iter_items, into_iter_len};
ghost use Rattle.nm_maildir.specs.Observed.{HasMailCause};
ghost use Rattle.nm_scan.specs.Batches.{HasReadBatch, StopsInBatch};

use crate::classes::note_all;
use crate::crew::Crew;
use crate::parts::classify_batch;
use nm_base::{Facts, MailPath, Many};
use nm_maildir::{Given, MailError, Maildir};
use nm_workers::Gate;
use std::alloc::Global;
use std::sync::Wait;
use std::thread::Threads;
use std::vec::IntoIter;

/// A mail of the index: where it is, and its facts.
pub type Mail = (MailPath, Facts);

/// Reads the next batch of the files, in order; meanwhile 1 to 16 workers, who pass the gate, find which of those that are read are
/// mail. It notes what is answered of each, and gives the mails. Where the reading stops, what was read before is noted as far as
/// memory goes.
pub fn read_batch<R: Threads + Wait + Sync, M: Maildir, G: Gate + Sync>(
    rt: &R,
    alloc: Global,
    mail: &mut M,
    paths: &mut IntoIter<MailPath, Global>,
    workers: u32,
    gate: &G,
    given: &mut Many<Given>,
) -> Result<Many<Mail>, MailError>
    requires workers { (0 < workers) × (workers ≤ 16) }
    requires whole { into_iter_len paths.old ≡ length (into_iter_items paths.old) }
    requires some { 0 < length (into_iter_items paths.old) }
    ensures ok { IfOk result (λ added. HasReadBatch (M.observed mail.old) (M.observed mail.new) given.old given.new
        (into_iter_items paths.old) (into_iter_items paths.new) added) }
    ensures err { IfErr result (λ _. StopsInBatch (M.observed mail.old) (M.observed mail.new) given.old given.new (into_iter_items paths.old)) }
    ensures whole { into_iter_len paths.new ≡ length (into_iter_items paths.new) }
    ensures cause { HasMailCause (M.observed mail.old).faults (M.observed mail.new).faults result }
{
    let crew = Crew {
        rt,
        alloc,
        workers,
        gate,
    };
    let mut all = Vec::new(alloc);
    match classify_batch(&crew, mail, paths, &mut all) {
        Ok(()) => {
            let added = note_all(alloc, all, given)?;
            Ok(added)
        }
        Err(error) => {
            let _ = note_all(alloc, all, given);
            Err(error)
        }
    }
}
