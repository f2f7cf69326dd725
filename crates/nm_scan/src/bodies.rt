//! Reading the files that `show` asks for, whose bytes are noted, up to as many bytes as a session may show:
//! `nm_line` reads them.

ghost use Rattle.std.specs.Prelude.{◌≡◌, ◌∷◌, [], ◌++◌, IfErr, IfOk, OnErr, OnOk};
ghost use Rattle.nm_faults.specs.Faults.{HasCauseOf};
ghost use Rattle.nm_scan.specs.Bodies.{HasReadBodies, HasReadBody, StopsAtBody, StopsInBodies, body_len, body_of, given_len, is_folder_fault, is_over, left_after};

use crate::bodies_error::BodiesError;
use nm_base::{Copies, MailPath, Many, NoMemory};
use nm_maildir::{Given, Got, Maildir, ReadAnswer};

/// The most bytes of a file that is shown.
const MAX_BYTES: u64 = 67_108_864;

/// How many of n bytes are left when the folder has given this.
pub fn left_after(left: u64, given: &[Given]) -> u64
    ensures { result ≡ left_after left given.now }
{
    let mut rest = left;
    'given: for answer in given {
        rest = rest.saturating_sub(given_len(answer));
    }
    rest
}

fn given_len(given: &Given) -> u64
    ensures { result ≡ given_len given.now }
{
    match given {
        Given::Listed(_) => 0,
        Given::Read { path: _, answer } => body_len(answer),
        Given::Renamed { .. } => 0,
    }
}

fn body_len(answer: &ReadAnswer) -> u64
    ensures { result ≡ body_len answer.now }
{
    match answer {
        ReadAnswer::Mail => 0,
        ReadAnswer::NotMail => 0,
        ReadAnswer::Missing => 0,
        ReadAnswer::TooLong => 0,
        ReadAnswer::Body(bytes) => bytes.len() as u64,
    }
}

/// Reads the files in order, of at most n bytes in all, and notes what is answered of each.
pub fn read_bodies<M: Maildir>(
    mail: &mut M,
    paths: &[MailPath],
    left: u64,
    given: &mut Many<Given>,
) -> Result<(), BodiesError>
    ensures ok { OnOk result (HasReadBodies (M.observed mail.old) (M.observed mail.new) left given.old given.new paths.now) }
    ensures err { IfErr result (StopsInBodies (M.observed mail.old) (M.observed mail.new) left given.old given.new paths.now) }
    ensures cause { HasCauseOf is_folder_fault (M.observed mail.old).faults (M.observed mail.new).faults result }
{
    let mut rest = left;
    'paths: for path in paths {
        rest = read_body(mail, path, rest, given)?;
    }
    Ok(())
}

/// Reads one file, and notes what is answered. Says how many bytes are left.
fn read_body<M: Maildir>(
    mail: &mut M,
    path: &MailPath,
    left: u64,
    given: &mut Many<Given>,
) -> Result<u64, BodiesError>
    ensures ok { IfOk result (λ rest. HasReadBody (M.observed mail.old) (M.observed mail.new) left rest given.old given.new path.now) }
    ensures err { IfErr result (StopsAtBody (M.observed mail.old) (M.observed mail.new) left given.old given.new path.now) }
    ensures cause { HasCauseOf is_folder_fault (M.observed mail.old).faults (M.observed mail.new).faults result }
{
    let got = mail.read(path, left)?;
    let answer = body_of(got);
    let len = body_len(&answer);
    let over = is_over(left, &answer);
    note(path, answer, given)?;
    if over {
        return Err(BodiesError::ShowBytes);
    }
    Ok(left.saturating_sub(len))
}

fn body_of(got: Got) -> ReadAnswer
    ensures { result ≡ body_of got }
{
    match got {
        Got::Found(bytes) => ReadAnswer::Body(bytes),
        Got::Missing => ReadAnswer::Missing,
        Got::TooLong => ReadAnswer::TooLong,
    }
}

/// Says whether the file has more bytes than are left, where fewer are left than a file may have.
fn is_over(left: u64, answer: &ReadAnswer) -> bool
    ensures { result ≡ is_over left answer.now }
{
    match answer {
        ReadAnswer::Mail => false,
        ReadAnswer::NotMail => false,
        ReadAnswer::Missing => false,
        ReadAnswer::TooLong => left < MAX_BYTES,
        ReadAnswer::Body(_) => false,
    }
}

fn note(path: &MailPath, answer: ReadAnswer, given: &mut Many<Given>) -> Result<(), NoMemory>
    ensures ok { OnOk result (given.new ≡ given.old ++ Given.Read path.now answer ∷ []) }
    ensures err { OnErr result (given.new ≡ given.old) }
{
    let path = path.copy()?;
    given.push(Given::Read { path, answer })
}
