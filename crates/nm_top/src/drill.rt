//! A drill, for `top_call`: a session over a store that is made by numbers, all in memory, and a summary of its replies.

ghost use Rattle.std.specs.Prelude.{◌≡◌, ◌⊎◌, ◌<◌, ◌≤◌, ℕ, List, ◌++◌, IfErr, IfOk, IfSome, MatchOption, None, Ok, Err, Some, true};
ghost use Rattle.std.specs.Fmt.{decimal};
ghost use Rattle.std.specs.List.{list_all};
ghost use Rattle.nm_command.specs.Requests.{request_of};
ghost use Rattle.nm_command.specs.declared.request.Request.TheVariants as asked;
ghost use Rattle.nm_log.specs.Replies.{is_well};
ghost use Rattle.nm_top.specs.Drill.{AnswersAll, DrillEnds, EndsAfterRun, IsLogOfDrill, is_drill, log_of_line, reply_of_line, revision_of_line, summary_of};

use crate::call_end::{refuse, say};
use crate::devices::Devices;
use nm_base::{Many, NoMemory, Text};
use nm_call::read_phases;
use nm_command::{
    CommandError, Request, a_request_that_is_written_out_is_read_back, command,
    words_are_read_as_the_grammar_says,
};
use nm_disk::MemDisk;
use nm_drill::{drill_script, drill_tree};
use nm_io::{MemSink, MemSource, Sink};
use nm_log::{Crew, Done, LineLog, Refusal, is_well, print_text};
use nm_workers::Gate;
use std::alloc::Global;
use std::sync::Wait;
use std::thread::Threads;

/// How many lines its script has, besides the one that ends a phase.
const LINES: usize = 6;

/// Runs the drill that the words ask for, and prints the summary.
pub(crate) fn drill<R: Threads + Wait + Sync, G: Gate + Sync, O: Sink, E: Sink>(
    crew: &Crew<'_, R>,
    gate: &G,
    words: &[Text],
    out: &mut O,
    err: &mut E,
) -> Done
    requires drill { is_drill words.now ≡ true }
    ensures { DrillEnds words.now crew.now.setting.now result (O.observed out.old) (O.observed out.new) (E.observed err.old) (E.observed err.new) }
{
    match drill_count(crew.alloc, words) {
        Ok(count) => match run_its_session(crew, gate, count) {
            Ok(done) => {
                let status = end(crew.alloc, count, &done, out, err);
                Done {
                    status,
                    log: done.log,
                }
            }
            Err(NoMemory) => refuse(crew.alloc, err, &Refusal::NoMemory),
        },
        Err(CommandError::Usage { word, kind }) => refuse(
            crew.alloc,
            err,
            &Refusal::Usage { word, kind },
        ),
        Err(CommandError::NoMemory) => refuse(crew.alloc, err, &Refusal::NoMemory),
    }
}

/// How many mails the words ask for.
fn drill_count(alloc: Global, words: &[Text]) -> Result<u32, CommandError>
    requires { is_drill words.now ≡ true }
    ensures ok { IfOk result (λ count. request_of words.now ≡ Ok (asked.Drill count)) }
    ensures few { IfOk result (λ count. (1 ≤ count) × (count ≤ 20000)) }
    ensures err { IfErr result (λ error. (error ≡ CommandError.NoMemory) ⊎ (request_of words.now ≡ Err error)) }
{
    words_are_read_as_the_grammar_says();
    a_request_that_is_written_out_is_read_back();
    match command(alloc, words) {
        Ok(Request::Drill(count)) => Ok(count),
        Ok(_) => unreachable!(),
        Err(error) => Err(error),
    }
}

/// Runs its session over devices of its own, none of whose calls is to fail.
fn run_its_session<R: Threads + Wait + Sync, G: Gate + Sync>(
    crew: &Crew<'_, R>,
    gate: &G,
    count: u32,
) -> Result<Done, NoMemory>
    requires { (1 ≤ count) × (count ≤ 20000) }
    ensures { IfOk result (λ done. IsLogOfDrill count crew.now.setting.now done.log) }
{
    let alloc = crew.alloc;
    let mut mail = drill_tree(alloc, count)?;
    let mut disk = MemDisk::fresh(alloc)?;
    let script = drill_script(alloc)?;
    let mut input = MemSource::new(script, Many::new(alloc));
    let mut out = MemSink::new(alloc, Many::new(alloc));
    let mut err = MemSink::new(alloc, Many::new(alloc));
    let call = read_phases(alloc, &mut input);
    let mut devices = Devices {
        mail: &mut mail,
        disk: &mut disk,
        out: &mut out,
        err: &mut err,
    };
    Ok(devices.run(crew, gate, call))
}

/// Prints the summary of a session that ended so, if each line was answered, and gives the status of the drill.
fn end<O: Sink, E: Sink>(alloc: Global, count: u32, done: &Done, out: &mut O, err: &mut E) -> u8
    ensures { EndsAfterRun count done.now.log.lines result (O.observed out.old) (O.observed out.new) (E.observed err.old) (E.observed err.new) }
{
    match summary_if_well(alloc, count, done) {
        Some(text) => print_summary(text.as_slice(), out, err),
        None => {
            say(err, b"notmuch: no memory\n");
            7
        }
    }
}

/// The summary of a session whose lines were all answered.
fn summary_if_well(alloc: Global, count: u32, done: &Done) -> Option<Many<u8>>
    ensures all { IfSome result (λ _. AnswersAll done.now.log.lines) }
    ensures text { IfSome result (λ text. text ≡ summary_of count done.now.log.lines) }
{
    let logs = done.log.lines.as_slice();
    if done.status != 0 || logs.len() != LINES || !are_well(logs) {
        return None;
    }
    summary(alloc, count, logs).ok()
}

fn are_well(logs: &[LineLog]) -> bool
    ensures { result ≡ list_all (λ log. is_well log.outcome) logs.now }
{
    logs.iter().all(|log| is_well(&log.outcome))
}

fn summary(alloc: Global, count: u32, logs: &[LineLog]) -> Result<Many<u8>, NoMemory>
    ensures { IfOk result (λ text. text ≡ summary_of count logs.now) }
{
    let mut text = Many::from_slice(alloc, b"drill ")?;
    add_number(alloc, &mut text, u64::from(count))?;
    text.extend_from_slice(b"\nmails ")?;
    text.extend_from_slice(reply_of_line(4, logs))?;
    text.extend_from_slice(b"threads ")?;
    text.extend_from_slice(reply_of_line(5, logs))?;
    text.extend_from_slice(b"read ")?;
    text.extend_from_slice(reply_of_line(6, logs))?;
    text.extend_from_slice(b"revision ")?;
    add_number(alloc, &mut text, revision_of_line(4, logs))?;
    text.extend_from_slice(b"\n")?;
    text.extend_from_slice(reply_of_line(7, logs))?;
    Ok(text)
}

fn add_number(alloc: Global, text: &mut Many<u8>, number: u64) -> Result<(), NoMemory>
    ensures { IfOk result (λ _. text.new ≡ text.old ++ decimal number) }
{
    let digits = number.to_string(alloc)?;
    text.extend_from_slice(digits.as_bytes())
}

fn reply_of_line(number: u32, logs: &[LineLog]) -> &[u8]
    ensures { result.now ≡ reply_of_line number logs.now }
{
    match log_of_line(number, logs) {
        Some(log) => log.text.as_slice(),
        None => &[],
    }
}

fn revision_of_line(number: u32, logs: &[LineLog]) -> u64
    ensures { result ≡ revision_of_line number logs.now }
{
    match log_of_line(number, logs) {
        Some(log) => log.revision,
        None => 0,
    }
}

/// The log of the line of this number.
fn log_of_line(number: u32, logs: &[LineLog]) -> Option<&LineLog>
    ensures { MatchOption result (log_of_line number logs.now ≡ None) (λ log. log_of_line number logs.now ≡ Some log.now) }
{
    match logs {
        [] => None,
        [log, rest @ ..] => {
            if log.line == number {
                return Some(log);
            }
            log_of_line(number, rest)
        }
    }
}

/// Prints the summary of a session that went well.
fn print_summary<O: Sink, E: Sink>(text: &[u8], out: &mut O, err: &mut E) -> u8
    ensures { (count : ℕ) (logs : List LineLog) → AnswersAll logs → text.now ≡ summary_of count logs
        → EndsAfterRun count logs result (O.observed out.old) (O.observed out.new) (E.observed err.old) (E.observed err.new) }
{
    match print_text(out, text) {
        Ok(()) => 0,
        Err(_) => {
            say(err, b"notmuch: write fault\n");
            6
        }
    }
}
