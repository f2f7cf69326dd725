//! What came of a session, in the lines of an answer: `session_rows` prints it.

use crate::row_lines::says;
use nm_top::{Done, LineLog, Step};
use rows::{Lines, RowLine, cut};

/// What was printed, what was said after `err: `, and a last line with the status, the steps, and the numbers that the session asks for
/// by its lines `tell`: by `tell acked` the clocks at which commits were acknowledged, by `tell calls` how many calls the disk had.
pub fn push_transcript(
    lines: &mut Lines,
    told: &[RowLine<'_>],
    out: &[u8],
    err: &[u8],
    done: &Done,
    calls: u64,
) {
    lines.line(out);
    push_said(lines, err);
    push_named(lines, b"status", u64::from(done.status));
    push_steps(lines, done.log.steps.as_slice());
    if says(told, b"tell", b"acked") {
        push_clocks(lines, done.log.acked.as_slice());
    }
    if says(told, b"tell", b"calls") {
        push_named(lines, b", calls", calls);
    }
}

/// By `tell lines` the lines of the log, by `tell met` whether two seats met, by `tell head` the bytes of the head file.
pub fn push_told(
    lines: &mut Lines,
    told: &[RowLine<'_>],
    logs: &[LineLog],
    met: bool,
    head: &[u8],
) {
    if says(told, b"tell", b"lines") {
        push_logs(lines, logs);
    }
    if says(told, b"tell", b"met") {
        push_met(lines, met);
    }
    if says(told, b"tell", b"head") {
        lines.push(b", head ");
        lines.push(head);
    }
}

fn push_said(lines: &mut Lines, said: &[u8]) {
    if !said.is_empty() {
        lines.push(b"err: ");
        lines.push(said);
    }
}

fn push_named(lines: &mut Lines, name: &[u8], number: u64) {
    lines.push(name);
    lines.push(b" ");
    lines.push_number(number);
}

/// A letter for each step, where there are some.
fn push_steps(lines: &mut Lines, steps: &[Step]) {
    if !steps.is_empty() {
        lines.push(b", steps ");
    }
    'steps: for step in steps {
        lines.push(letter_of(step));
    }
}

/// It is begun, it is there, it is shown; a read, a barrier, a reply.
fn letter_of(step: &Step) -> &'static [u8] {
    match step {
        Step::Begin { .. } => b"B",
        Step::Append => b"A",
        Step::Show => b"S",
        Step::See { .. } => b"L",
        Step::Meet => b"M",
        Step::Reply { .. } => b"R",
        Step::Crash { .. } => b"C",
        Step::Reopen => b"O",
    }
}

fn push_met(lines: &mut Lines, met: bool) {
    lines.push(if met {
        b", met".as_slice()
    } else {
        b", not met"
    });
}

fn push_clocks(lines: &mut Lines, clocks: &[u64]) {
    lines.push(b", acked");
    'clocks: for clock in clocks {
        push_named(lines, b"", *clock);
    }
}

/// Each line with its numbers and the first line of its text, or that there is none.
fn push_logs(lines: &mut Lines, logs: &[LineLog]) {
    if logs.is_empty() {
        lines.push(b", no line");
    }
    'logs: for log in logs {
        push_log(lines, log);
    }
}

/// Where the line is, how it ended, how much the mail folder gave, how often the devices had failed, and its text.
fn push_log(lines: &mut Lines, log: &LineLog) {
    push_place(lines, log);
    push_named(lines, b" status", u64::from(log.status));
    push_named(lines, b" given", log.given.as_slice().len() as u64);
    push_named(lines, b" faults", log.mail_faults);
    push_named(lines, b"", log.disk_faults);
    lines.push(b": ");
    lines.push(cut(log.text.as_slice(), b'\n').0);
}

fn push_place(lines: &mut Lines, log: &LineLog) {
    push_named(lines, b", phase", u64::from(log.phase));
    push_named(lines, b" lane", u64::from(log.lane));
    push_named(lines, b" line", u64::from(log.line));
    push_named(lines, b" revision", log.revision);
}
