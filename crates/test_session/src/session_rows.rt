//! Rows on whole sessions, for `answers`: one after the other over one disk, alone or after the options of the program:
//! what each call prints and says, its status, and the steps of its log.

use crate::disks::{calls, fresh, head_of, with_head};
use crate::row_lines::line_of;
use crate::session_run::run;
use crate::sessions::{Session, sessions};
use crate::transcripts::{push_told, push_transcript};
use nm_disk::MemDisk;
use nm_top::Done;
use rows::{Lines, Row, RowError};
use std::alloc::Global;
use std::sync::Wait;
use std::thread::Threads;

const MARKS: [&[u8]; 18] = [
    b"$",
    b"file",
    b"many",
    b"gone",
    b"shift",
    b"goes",
    b"meets",
    b"comes",
    b"then",
    b"head",
    b"mail-fails",
    b"disk-fails",
    b"input-fails",
    b"out-fails",
    b"err-fails",
    b"tell",
    b"|",
    b"=",
];

/// Runs the calls that the row has.
pub fn answer<R: Threads + Wait + Sync>(
    rt: &R,
    alloc: Global,
    row: &Row<'_>,
) -> Result<Vec<u8>, RowError> {
    let mut sessions = sessions(alloc, row, &MARKS)?;
    run_all(rt, alloc, row, sessions.as_mut_slice())
}

fn run_all<R: Threads + Wait + Sync>(
    rt: &R,
    alloc: Global,
    row: &Row<'_>,
    sessions: &mut [Session<'_>],
) -> Result<Vec<u8>, RowError> {
    let mut disk = disk(alloc, row)?;
    let mut lines = Lines::new(alloc);
    'sessions: for session in sessions.iter_mut() {
        run_one(rt, alloc, session, &mut disk, &mut lines);
    }
    lines.into_bytes()
}

/// The disk of the row at its entry: a fresh one, or one whose head file has the bytes of the line `head`.
fn disk(alloc: Global, row: &Row<'_>) -> Result<Box<MemDisk>, RowError> {
    match line_of(row.lines.as_slice(), b"head") {
        Some(head) => with_head(alloc, head),
        None => fresh(alloc),
    }
}

fn run_one<R: Threads + Wait + Sync>(
    rt: &R,
    alloc: Global,
    session: &mut Session<'_>,
    disk: &mut MemDisk,
    lines: &mut Lines,
) {
    let before = calls(disk);
    let done = run(rt, alloc, session, disk);
    let calls = calls(disk).saturating_sub(before);
    push_ran(lines, session, disk, &done, calls);
}

fn push_ran(lines: &mut Lines, session: &Session<'_>, disk: &MemDisk, done: &Done, calls: u64) {
    push_transcript(
        lines,
        session.lines,
        session.out.bytes(),
        session.err.bytes(),
        done,
        calls,
    );
    push_told(
        lines,
        session.lines,
        done.log.lines.as_slice(),
        session.gate.met(),
        head_of(disk),
    );
}
