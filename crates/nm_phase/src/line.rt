//! One line of lane 0: it is answered, and noted in the log. `first_lane` calls it for each, and `command` of `nm_session` for the one line of a command.

ghost use Rattle.std.specs.Prelude.{◌≡◌, ◌&&◌, ◌-◌, ◌≤◌, codes, length, not};
ghost use Rattle.nm_lanes.specs.declared.script.ScriptLine.{ScriptLine};
ghost use Rattle.nm_base.specs.Limits.{max_commits};
ghost use Rattle.nm_line.specs.Desk.{IsReady, KeepsLoans, Stands, StaysDurable, place_of};
ghost use Rattle.nm_scan.specs.Bodies.{left_after};
ghost use Rattle.nm_phase.specs.LineLog.{IsAskedBy, IsNoted, IsRun};
ghost use Rattle.nm_trace.specs.ReservedLog.{HasSpare};

use nm_base::Many;
use nm_disk::Disk;
use nm_lanes::ScriptLine;
use nm_line::{Desk, LineAnswer, answer, answered_or};
use nm_log::{Crew, LineLog, Said, line_status};
use nm_maildir::Maildir;
use nm_prepare::{AskError, Prepared, prepare_line};
use nm_scan::left_after;
use nm_trace::{ReservedLog, take_fallback};
use nm_writer::Writer;
use std::alloc::Global;
use std::sync::Wait;
use std::thread::Threads;

/// A line whose turn has come: where it is, and what it asks for.
#[derive(Drop)]
pub struct AskedLine {
    pub lane: u32,
    pub number: u32,
    pub prepared: Result<Prepared, AskError>,
}

/// What a line of a script asks for.
pub(crate) fn asked_line(alloc: Global, line: &ScriptLine) -> AskedLine
    ensures { IsAskedBy line.now result }
{
    AskedLine {
        lane: line.lane,
        number: line.number,
        prepared: prepare_line(alloc, line),
    }
}

/// Runs one line, and notes it in places that are spare. `left` is how many bytes may still be shown; it answers how many may after the line.
pub fn run_line<R: Threads + Wait + Sync, M: Maildir, D: Disk>(
    crew: &Crew<'_, R>,
    phase: u32,
    asked: AskedLine,
    left: u64,
    reserved: &mut ReservedLog,
    desk: &mut Desk<'_, '_, '_, M, D>,
) -> u64
    requires asked { (line : ScriptLine) × IsAskedBy line asked }
    requires spare { HasSpare 1 (length desk.old.writer.now.begun) reserved.old }
    requires ready { IsReady desk.old.writer.now (D.observed desk.old.disk.now) }
    ensures noted { (line : ScriptLine) → IsAskedBy line asked → IsNoted crew.now.setting.now.moment phase (place_of M.observed D.observed desk.old left) line reserved.old reserved.new
        (place_of M.observed D.observed desk.new result) }
    ensures stands { Stands desk.new.writer.now (D.observed desk.new.disk.now) }
    ensures durable { StaysDurable D.observed desk.old desk.new }
    ensures loans { KeepsLoans desk.old desk.new }
{
    let fallback = take_fallback(&mut reserved.fallbacks);
    let before = desk.writer.acked().len();
    let (log, reply) = line_log(crew, phase, asked, left, fallback, desk);
    let made = made_since(before, desk.writer);
    let left = left_after(left, log.given.as_slice());
    reserved.note(log, made, reply);
    left
}

/// How many commits were acknowledged since there were n.
fn made_since(before: usize, writer: &Writer) -> usize
    ensures count { result ≡ length writer.now.acked - before }
    ensures few { length writer.now.begun ≤ max_commits }
{
    writer.acked().len().saturating_sub(before)
}

/// Runs the line. `fallback` is its text where it runs out of memory.
fn line_log<R: Threads + Wait + Sync, M: Maildir, D: Disk>(
    crew: &Crew<'_, R>,
    phase: u32,
    asked: AskedLine,
    left: u64,
    fallback: Many<u8>,
    desk: &mut Desk<'_, '_, '_, M, D>,
) -> (LineLog, Option<Said>)
    requires fallback { fallback ≡ codes "notmuch: no memory\n" }
    requires ready { IsReady desk.old.writer.now (D.observed desk.old.disk.now) }
    ensures run { (line : ScriptLine) → IsAskedBy line asked → IsRun crew.now.setting.now.moment phase (place_of M.observed D.observed desk.old left) (line, result.0) result.1
        (place_of M.observed D.observed desk.new (left_after left result.0.given)) }
    ensures stands { Stands desk.new.writer.now (D.observed desk.new.disk.now) }
    ensures durable { StaysDurable D.observed desk.old desk.new }
    ensures loans { KeepsLoans desk.old desk.new }
{
    let AskedLine {
        lane,
        number,
        prepared,
    } = asked;
    let mut given = Many::new(crew.alloc);
    let was_closed = desk.writer.is_closed();
    let answered = answer(crew, prepared, left, desk, &mut given);
    let LineAnswer {
        outcome,
        text,
        reply,
    } = answered_or(answered, fallback);
    let log = LineLog {
        phase,
        lane,
        line: number,
        revision: desk.writer.snapshot().revision(),
        status: line_status(&outcome),
        outcome,
        text,
        given,
        mail_faults: desk.mail.faults(),
        disk_faults: desk.disk.faults(),
        disk_failed: newly_closed(was_closed, desk.writer.is_closed()),
    };
    (log, reply)
}

/// Whether the writer was closed in between.
fn newly_closed(before: bool, now: bool) -> bool
    ensures { result ≡ (now && not before) }
{
    now && !before
}
