//! Rows on sessions that crash within each call of their disk, for `answers`: what the next session replies.

use crate::answers::if_read;
use crate::disks::{calls, fresh, stopped};
use crate::session_run::run;
use crate::sessions::{Session, sessions};
use nm_base::Many;
use nm_disk::{MemDisk, Pick};
use nm_top::{Done, LineLog};
use rows::{Lines, Row, RowError, cut};
use std::alloc::Global;
use std::sync::Wait;
use std::thread::Threads;

const MARKS: [&[u8]; 5] = [b"file", b"gone", b"then", b"|", b"="];

/// What the ranges hold that are not synced, in the order of the columns.
const PICKS: [Pick; 5] = [
    Pick::Old,
    Pick::New,
    Pick::Fill(0),
    Pick::Fill(1),
    Pick::Fill(255),
];

/// A disk after a crash, and the session that comes after it.
#[derive(Drop)]
struct Stop<'a> {
    disk: Box<MemDisk>,
    session: Session<'a>,
}

/// A line for each call of the last session but one: what the last session replies after a crash within it, for each
/// pick.
pub fn answer<R: Threads + Wait + Sync>(
    rt: &R,
    alloc: Global,
    row: &Row<'_>,
) -> Result<Vec<u8>, RowError> {
    let mut stops = stops(rt, alloc, row)?;
    let mut lines = Lines::new(alloc);
    run_stops(rt, alloc, stops.as_mut_slice(), &mut lines);
    lines.into_bytes()
}

fn stops<'a, R: Threads + Wait + Sync>(
    rt: &R,
    alloc: Global,
    row: &'a Row<'a>,
) -> Result<Vec<Stop<'a>>, RowError> {
    let mut disk = fresh(alloc)?;
    let from = run_before(rt, alloc, row, &mut disk);
    let mut stops = Many::new(alloc);
    let added = add_calls(alloc, &mut stops, row, &disk, from);
    if_read(added, stops.into_vec())
}

/// Runs all sessions but the last, and gives the number of the last call before the session that is to crash.
fn run_before<R: Threads + Wait + Sync>(
    rt: &R,
    alloc: Global,
    row: &Row<'_>,
    disk: &mut MemDisk,
) -> Result<u64, RowError> {
    let mut sessions = sessions(alloc, row, &MARKS)?;
    // The last one is made anew for each crash.
    sessions.truncate(sessions.len().saturating_sub(1));
    run_whole(rt, alloc, sessions.as_mut_slice(), disk)
}

/// Runs sessions that no device fails.
fn run_whole<R: Threads + Wait + Sync>(
    rt: &R,
    alloc: Global,
    sessions: &mut [Session<'_>],
    disk: &mut MemDisk,
) -> Result<u64, RowError> {
    let mut from = Err(RowError::Broken("a session to stop, and one after it"));
    'sessions: for session in sessions.iter_mut() {
        from = run_answered(rt, alloc, session, disk);
    }
    from
}

/// Runs a session, and gives the number of the last call before it.
fn run_answered<R: Threads + Wait + Sync>(
    rt: &R,
    alloc: Global,
    session: &mut Session<'_>,
    disk: &mut MemDisk,
) -> Result<u64, RowError> {
    let before = calls(disk);
    let done = run(rt, alloc, session, disk);
    if_answered(&done, before)
}

fn if_answered(done: &Done, before: u64) -> Result<u64, RowError> {
    if done.status == 0 {
        Ok(before)
    } else {
        Err(RowError::Broken("a session before the stop is not answered"))
    }
}

/// Adds the crashes within each call after the call `from`, counted from 1.
fn add_calls<'a>(
    alloc: Global,
    stops: &mut Many<Stop<'a>>,
    row: &'a Row<'a>,
    disk: &MemDisk,
    from: Result<u64, RowError>,
) -> Result<(), RowError> {
    'calls: for call in from?..calls(disk) {
        add_picks(alloc, stops, row, disk, call.saturating_add(1))?;
    }
    Ok(())
}

fn add_picks<'a>(
    alloc: Global,
    stops: &mut Many<Stop<'a>>,
    row: &'a Row<'a>,
    disk: &MemDisk,
    call: u64,
) -> Result<(), RowError> {
    'picks: for pick in &PICKS {
        add_stop(alloc, stops, row, disk, call, *pick)?;
    }
    Ok(())
}

fn add_stop<'a>(
    alloc: Global,
    stops: &mut Many<Stop<'a>>,
    row: &'a Row<'a>,
    disk: &MemDisk,
    call: u64,
    pick: Pick,
) -> Result<(), RowError> {
    let disk = stopped(alloc, disk, call, pick)?;
    let session = last_session(alloc, row)?;
    Ok(stops.push(Stop { disk, session })?)
}

fn last_session<'a>(alloc: Global, row: &'a Row<'a>) -> Result<Session<'a>, RowError> {
    match sessions(alloc, row, &MARKS)?.pop() {
        Some(session) => Ok(session),
        None => Err(RowError::Broken("no session")),
    }
}

fn run_stops<R: Threads + Wait + Sync>(
    rt: &R,
    alloc: Global,
    stops: &mut [Stop<'_>],
    lines: &mut Lines,
) {
    'stops: for (at, stop) in stops.iter_mut().enumerate() {
        push_call(lines, at);
        run_stop(rt, alloc, stop, lines);
    }
}

fn run_stop<R: Threads + Wait + Sync>(
    rt: &R,
    alloc: Global,
    stop: &mut Stop<'_>,
    lines: &mut Lines,
) {
    let done = run(rt, alloc, &mut stop.session, &mut stop.disk);
    push_done(lines, &done);
}

/// The first crash within a call begins the line of the call.
fn push_call(lines: &mut Lines, at: usize) {
    if at % 5 == 0 {
        lines.begin();
        lines.push_number((at as u64 / 5).saturating_add(1));
        lines.push(b":");
    }
    lines.push(b" ");
}

/// The first lines of the replies, parted by commas, or the status where the session is not answered to its end.
fn push_done(lines: &mut Lines, done: &Done) {
    if done.status == 0 {
        push_replies(lines, done.log.lines.as_slice());
    } else {
        lines.push(b"status ");
        lines.push_number(u64::from(done.status));
    }
}

fn push_replies(lines: &mut Lines, logs: &[LineLog]) {
    'logs: for (at, log) in logs.iter().enumerate() {
        if at > 0 {
            lines.push(b",");
        }
        lines.push(cut(log.text.as_slice(), b'\n').0);
    }
}
