//! How the call ends, for `top_call` and `program_start`: what is printed and said, and the status.

ghost use Rattle.std.specs.Prelude.{◌≡◌, None, Some, IfOk, MatchOption};
ghost use Rattle.nm_history.specs.PrintedOut.{Prints, final_message, refused_text, write_message};
ghost use Rattle.nm_history.specs.Status.{any_is_out_of_memory, fault_of, first_fault, is_out_of_memory, session_status, single_status, status_by};
ghost use Rattle.nm_history.specs.UnaskedLine.{refused_done};
ghost use Rattle.nm_log.specs.Replies.{refusal_line};
ghost use Rattle.nm_top.specs.CallEnd.{EndsRun, Refuses, RefusesAlone, ended_on, ended_with, refusal_of};

use nm_base::{Many, NoMemory};
use nm_io::Sink;
use nm_log::{
    Done, LineLog, Outcome, Refusal, SessionLog, is_well, line_status, print_refusal, print_text,
    refusal_line, refused_status,
};
use nm_replay::OpenError;
use std::alloc::Global;

/// Ends a call over this run of its lines, or for this error of opening the index: what is said, the status and the log.
pub(crate) fn end_run<E: Sink>(
    alloc: Global,
    session: bool,
    run: Result<(SessionLog, bool), OpenError>,
    err: &mut E,
) -> Done
    ensures { EndsRun session run (E.observed err.old) (E.observed err.new) result }
{
    match run {
        Ok((log, out_failed)) => {
            let lines = log.lines.as_slice();
            say_last(err, session, lines, out_failed);
            let status = status_of_run(session, lines, out_failed);
            Done { status, log }
        }
        Err(error) => refuse(alloc, err, &refusal_of(error)),
    }
}

/// An error of opening, as the call is refused for it.
fn refusal_of(error: OpenError) -> Refusal
    ensures { result ≡ refusal_of error }
{
    match error {
        OpenError::DiskFault => Refusal::DiskFault,
        OpenError::BadIndex { file, at } => Refusal::BadIndex { file, at },
        OpenError::Limit(limit) => Refusal::Limit(limit),
        OpenError::NoMemory => Refusal::NoMemory,
    }
}

/// What a call whose lines were run says in the end besides its replies.
fn say_last<E: Sink>(err: &mut E, session: bool, logs: &[LineLog], out_failed: bool)
    ensures { Prints (final_message session logs.now out_failed) (E.observed err.old) (E.observed err.new) }
{
    if session {
        return say_write(err, out_failed);
    }
    match refused_text(logs) {
        Some(text) => say(err, text),
        None => say_write(err, out_failed),
    }
}

fn say_write<E: Sink>(err: &mut E, out_failed: bool)
    ensures { Prints (write_message out_failed) (E.observed err.old) (E.observed err.new) }
{
    if out_failed {
        say(err, b"notmuch: write fault\n");
    }
}

pub(crate) fn say<E: Sink>(err: &mut E, text: &[u8])
    ensures { Prints (Some text.now) (E.observed err.old) (E.observed err.new) }
{
    let _ = print_text(err, text);
}

/// The text of the first line that was refused.
fn refused_text(logs: &[LineLog]) -> Option<&[u8]>
    ensures { MatchOption result (refused_text logs.now ≡ None) (λ text. refused_text logs.now ≡ Some text.now) }
{
    match logs {
        [] => None,
        [log, rest @ ..] => {
            if is_well(&log.outcome) {
                return refused_text(rest);
            }
            Some(log.text.as_slice())
        }
    }
}

/// Ends a call that ran no line, with its status and one line.
pub(crate) fn refuse<E: Sink>(alloc: Global, err: &mut E, refusal: &Refusal) -> Done
    ensures { Refuses refusal.now (E.observed err.old) (E.observed err.new) result }
{
    let _ = print_refusal(err, refusal);
    ended(alloc, refused_status(refusal))
}

/// Ends a program that makes no call, with its status and one line.
pub(crate) fn ended_early<E: Sink>(alloc: Global, err: &mut E, status: u8, line: &[u8]) -> Done
    ensures ended { result ≡ ended_with status }
    ensures says { Prints (Some line.now) (E.observed err.old) (E.observed err.new) }
{
    say(err, line);
    ended(alloc, status)
}

/// Ends a single command that is refused before the mail folder and the disk are asked, which have failed so often: its text is said, and its
/// one line is in the log.
pub(crate) fn refuse_line<E: Sink>(
    alloc: Global,
    err: &mut E,
    outcome: Outcome,
    mail_faults: u64,
    disk_faults: u64,
) -> Done
    ensures { RefusesAlone outcome mail_faults disk_faults (E.observed err.old) (E.observed err.new) result }
{
    match refused_done(alloc, outcome, mail_faults, disk_faults) {
        Ok(done) => {
            say(err, done.log.lines.as_slice()[0].text.as_slice());
            done
        }
        Err(NoMemory) => refuse(alloc, err, &Refusal::NoMemory),
    }
}

/// The one line is refused so, before any index is there.
fn refused_done(
    alloc: Global,
    outcome: Outcome,
    mail_faults: u64,
    disk_faults: u64,
) -> Result<Done, NoMemory>
    ensures { IfOk result (λ done. done ≡ refused_done outcome mail_faults disk_faults) }
{
    let status = line_status(&outcome);
    let mut lines = Many::new(alloc);
    lines.push(LineLog {
        phase: 0,
        lane: 0,
        line: 1,
        revision: 0,
        status,
        text: refusal_line(alloc, &outcome)?,
        outcome,
        given: Many::new(alloc),
        mail_faults,
        disk_faults,
        disk_failed: false,
    })?;
    Ok(ended_on(alloc, status, lines))
}

fn ended(alloc: Global, status: u8) -> Done
    ensures { result ≡ ended_with status }
{
    ended_on(alloc, status, Many::new(alloc))
}

/// These lines are the log, and no step was taken.
fn ended_on(alloc: Global, status: u8, lines: Many<LineLog>) -> Done
    ensures { result ≡ ended_on status lines }
{
    Done {
        status,
        log: SessionLog {
            steps: Many::new(alloc),
            lines,
            acked: Many::new(alloc),
        },
    }
}

/// The status of a call whose lines were run.
fn status_of_run(session: bool, logs: &[LineLog], out_failed: bool) -> u8
    ensures { result ≡ status_by session logs.now out_failed }
{
    if session {
        return session_status(logs, out_failed);
    }
    single_status(logs, out_failed)
}

/// The status of a single command.
fn single_status(logs: &[LineLog], out_failed: bool) -> u8
    ensures { result ≡ single_status logs.now out_failed }
{
    let Some(log) = logs.first() else {
        return 7;
    };
    if !is_well(&log.outcome) {
        return line_status(&log.outcome);
    }
    if out_failed { 6 } else { 0 }
}

/// The status of a session.
fn session_status(logs: &[LineLog], out_failed: bool) -> u8
    ensures { result ≡ session_status logs.now out_failed }
{
    if let Some(status) = first_fault(logs) {
        return status;
    }
    if out_failed {
        return 6;
    }
    if any_is_out_of_memory(logs) { 7 } else { 0 }
}

/// The status of the first device that failed in a line.
fn first_fault(logs: &[LineLog]) -> Option<u8>
    ensures { result ≡ first_fault logs.now }
{
    match logs {
        [] => None,
        [log, rest @ ..] => match fault_of(&log.outcome) {
            Some(status) => Some(status),
            None => first_fault(rest),
        },
    }
}

fn fault_of(outcome: &Outcome) -> Option<u8>
    ensures { result ≡ fault_of outcome.now }
{
    match outcome {
        Outcome::MailFault => Some(3),
        Outcome::DiskFault => Some(4),
        Outcome::Ok
        | Outcome::Usage { .. }
        | Outcome::BadQuery { .. }
        | Outcome::BadDate { .. }
        | Outcome::BadLine { .. }
        | Outcome::NotOne { .. }
        | Outcome::Gone { .. }
        | Outcome::Closed { .. }
        | Outcome::Limit(_)
        | Outcome::NoMemory => None,
    }
}

fn any_is_out_of_memory(logs: &[LineLog]) -> bool
    ensures { result ≡ any_is_out_of_memory logs.now }
{
    logs.iter().any(|log| is_out_of_memory(&log.outcome))
}

fn is_out_of_memory(outcome: &Outcome) -> bool
    ensures { result ≡ is_out_of_memory outcome.now }
{
    matches!(outcome, Outcome::NoMemory)
}
