//! Which of the files of a batch are mail, which several workers find at once, and what is given of each, for `parts` and
//! `read_batch`.

ghost use Rattle.std.specs.Prelude.{◌≡◌, ◌<◌, ◌≤◌, ◌∷◌, [], ◌++◌, IfOk, IsOk, OnErr, OnOk, map};
ghost use Rattle.std.specs.List.{AllZip, flat_map};
ghost use Rattle.nm_scan.specs.Found.{HasNotedFront, IsClassified, given_of, mail_found};
ghost use Rattle.nm_scan.specs.FileReads.{Classifies};

use crate::Mail;
use crate::crew::Crew;
use nm_base::{Copies, Facts, MailPath, Many, NoMemory};
use nm_extract::{ExtractError, extract};
use nm_maildir::{Given, Got, ReadAnswer};
use nm_workers::{Gate, Job, map_jobs};
use std::alloc::Global;
use std::sync::Wait;
use std::thread::Threads;

/// What a read says of a file, and its facts where it is mail.
#[derive(Drop)]
pub(crate) struct Classified {
    path: MailPath,
    answer: ReadAnswer,
    facts: Option<Facts>,
}

/// The job of the workers.
#[derive(Clone, Copy)]
pub(crate) struct Classifying {
    pub alloc: Global,
}

impl Job for Classifying {
    type In = (MailPath, Got);

    type Out = Classified;

    ghost use Rattle.nm_scan.specs.Found.{IsClassified};

    ghost gives = { λ _ found classified. IsClassified found classified };

    fn run(&self, input: &(MailPath, Got)) -> Result<Classified, NoMemory> {
        let (answer, facts) = classify(self.alloc, &input.1)?;
        let path = input.0.copy()?;
        Ok(Classified {
            path,
            answer,
            facts,
        })
    }
}

/// Classifies the files.
pub(crate) fn classify_all<R: Threads + Wait + Sync, G: Gate + Sync>(
    crew: &Crew<'_, R, G>,
    found: &Many<(MailPath, Got)>,
) -> Result<Many<Classified>, NoMemory>
    requires workers { (0 < crew.now.workers) × (crew.now.workers ≤ 16) }
    ensures { IfOk result (AllZip IsClassified found.now) }
{
    let job = Classifying { alloc: crew.alloc };
    map_jobs(crew.rt, crew.alloc, &job, found, crew.workers, crew.gate)
}

/// Takes the classified files of a part after those before it.
pub(crate) fn take_part(
    classified: Result<Many<Classified>, NoMemory>,
    all: &mut Vec<Classified>,
) -> Result<(), NoMemory>
    ensures ok { OnOk result (IfOk classified (λ more. all.new.items ≡ all.old.items ++ more)) }
    ensures was_ok { OnOk result (IsOk classified) }
    ensures err { OnErr result (all.new.items ≡ all.old.items) }
{
    let mut more = classified?.into_vec();
    all.append(&mut more)?;
    Ok(())
}

/// Notes what is answered of each file, in order. Gives those that are mail.
pub(crate) fn note_all(
    alloc: Global,
    all: Vec<Classified>,
    given: &mut Many<Given>,
) -> Result<Many<Mail>, NoMemory>
    ensures ok { IfOk result (λ added. (given.new ≡ given.old ++ map given_of all.items) × (added ≡ flat_map mail_found all.items)) }
    ensures err { OnErr result (HasNotedFront all.items given.old given.new) }
{
    let mut added = Many::new(alloc);
    'all: for classified in all {
        note(classified, given, &mut added)?;
    }
    Ok(added)
}

/// Notes an answer. Where it is mail, it joins the arrivals.
fn note(
    classified: Classified,
    given: &mut Many<Given>,
    added: &mut Many<Mail>,
) -> Result<(), NoMemory>
    ensures ok { OnOk result ((given.new ≡ given.old ++ given_of classified ∷ []) × (added.new ≡ added.old ++ mail_found classified)) }
    ensures err { OnErr result (given.new ≡ given.old) }
{
    let Classified {
        path,
        answer,
        facts,
    } = classified;
    let copied = path.copy()?;
    if let Some(facts) = facts {
        added.push((path, facts))?;
    }
    given.push(Given::Read {
        path: copied,
        answer,
    })?;
    Ok(())
}

/// What a read tells, and the facts where it found mail.
fn classify(alloc: Global, got: &Got) -> Result<(ReadAnswer, Option<Facts>), NoMemory>
    ensures { IfOk result (Classifies got.now) }
{
    match got {
        Got::Missing => Ok((ReadAnswer::Missing, None)),
        Got::TooLong => Ok((ReadAnswer::TooLong, None)),
        Got::Found(bytes) => classify_bytes(alloc, bytes.as_slice()),
    }
}

fn classify_bytes(alloc: Global, bytes: &[u8]) -> Result<(ReadAnswer, Option<Facts>), NoMemory>
    ensures { IfOk result (Classifies (Got.Found bytes.now)) }
{
    match extract(alloc, bytes) {
        Ok(facts) => Ok((ReadAnswer::Mail, Some(facts))),
        Err(ExtractError::NotMail) => Ok((ReadAnswer::NotMail, None)),
        Err(ExtractError::NoMemory) => Err(NoMemory),
    }
}
