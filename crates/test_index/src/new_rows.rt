//! Rows on a `new` over the mails of the drill, for `answers`: what it leaves is the same for any number of workers, and two of them work at once.

ghost use Rattle.std.specs.Prelude.{◌<◌, ◌≤◌, IfOk};

use crate::disks::{fresh, head_of};
use crate::names::is_item;
use nm_base::Many;
use nm_disk::{Disk, MemDisk};
use nm_drill::drill_tree;
use nm_maildir::Maildir;
use nm_workers::MeetGate;
use nm_writer::{Opened, Writer};
use rows::{Lines, Row, RowError, number_of};
use std::alloc::Global;
use std::sync::Wait;
use std::thread::Threads;

/// For how many turns a worker waits for another one.
const TURNS: u64 = 1_000_000_000;

/// What a `new` leaves, and whether two workers met.
#[derive(Drop)]
struct Left {
    added: u64,
    commits: u64,
    head: Vec<u8>,
    met: bool,
}

/// How many mails a `new` adds, and the commits that it makes.
#[derive(Clone, Copy)]
struct Added {
    mails: u64,
    commits: u64,
}

/// What a `new` over the mails of the drill leaves, for each number of workers in a line `|`; after `?` comes how many mails.
pub fn by_workers<R: Threads + Wait + Sync>(
    rt: &R,
    alloc: Global,
    row: &Row<'_>,
) -> Result<Vec<u8>, RowError> {
    let count = within(row.number(b"?", 0)?, 20_000)?;
    let alone = after_new(rt, alloc, count, 1)?;
    by_each(rt, alloc, row, count, alone.head.as_slice())
}

fn by_each<R: Threads + Wait + Sync>(
    rt: &R,
    alloc: Global,
    row: &Row<'_>,
    count: u32,
    alone: &[u8],
) -> Result<Vec<u8>, RowError>
    requires { (0 < count) × (count ≤ 20000) }
{
    let mut lines = Lines::new(alloc);
    'lines: for line in row.lines.as_slice() {
        if is_item(line) {
            let left = left_by(rt, alloc, count, line.bytes.as_slice())?;
            push_left(&mut lines, &left, alone);
        }
    }
    lines.into_bytes()
}

fn left_by<R: Threads + Wait + Sync>(
    rt: &R,
    alloc: Global,
    count: u32,
    workers: &[u8],
) -> Result<Left, RowError>
    requires { (0 < count) × (count ≤ 20000) }
{
    let workers = within(number_of(workers)?, 16)?;
    after_new(rt, alloc, count, workers)
}

/// A number of a row, from 1 up to a bound.
fn within(number: u64, max: u32) -> Result<u32, RowError>
    ensures { IfOk result (λ count. (0 < count) × (count ≤ max)) }
{
    if number == 0 || number > u64::from(max) {
        return Err(RowError::Broken("no number in its bounds"));
    }
    Ok(number as u32)
}

fn push_left(lines: &mut Lines, left: &Left, alone: &[u8]) {
    lines.begin();
    lines.push_number(left.added);
    lines.push(b" mails, ");
    lines.push_number(left.commits);
    lines.push(b" commits");
    if left.head.as_slice() == alone {
        lines.push(b", the same bytes");
    }
    if left.met {
        lines.push(b", met");
    }
}

/// What a number of workers leave of a number of mails. The first two workers meet.
fn after_new<R: Threads + Wait + Sync>(
    rt: &R,
    alloc: Global,
    count: u32,
    workers: u32,
) -> Result<Left, RowError>
    requires count { (0 < count) × (count ≤ 20000) }
    requires workers { (0 < workers) × (workers ≤ 16) }
{
    let mut mail = drill_tree(alloc, count)?;
    on_disk(rt, alloc, &mut mail, workers)
}

fn on_disk<R: Threads + Wait + Sync, M: Maildir>(
    rt: &R,
    alloc: Global,
    mail: &mut M,
    workers: u32,
) -> Result<Left, RowError>
    requires { (0 < workers) × (workers ≤ 16) }
{
    let mut owned = fresh(alloc)?;
    left_on(rt, alloc, mail, &mut owned.disk, workers)
}

fn left_on<R: Threads + Wait + Sync, M: Maildir>(
    rt: &R,
    alloc: Global,
    mail: &mut M,
    disk: &mut MemDisk,
    workers: u32,
) -> Result<Left, RowError>
    requires { (0 < workers) × (workers ≤ 16) }
{
    let gate = MeetGate::new(1, 2, if workers > 1 { TURNS } else { 0 });
    let added = run_new(rt, alloc, mail, disk, workers, &gate)?;
    Ok(Left {
        added: added.mails,
        commits: added.commits,
        head: head_of(disk).to_vec(alloc)?,
        met: gate.met(),
    })
}

fn run_new<R: Threads + Wait + Sync, M: Maildir, D: Disk>(
    rt: &R,
    alloc: Global,
    mail: &mut M,
    disk: &mut D,
    workers: u32,
    gate: &MeetGate,
) -> Result<Added, RowError>
    requires { (0 < workers) × (workers ≤ 16) }
{
    match Writer::open(rt, alloc, disk, 0, workers) {
        Ok(opened) => {
            let Opened {
                mut writer,
                readers: _,
            } = opened;
            let mut given = Many::new(alloc);
            let report = writer.new_mail(rt, mail, disk, workers, gate, &mut given);
            let commits = writer.acked().len() as u64;
            let _ = writer.finish(rt);
            match report {
                Ok(report) => Ok(Added {
                    mails: report.added,
                    commits,
                }),
                Err(_) => Err(RowError::Broken("a new that went wrong")),
            }
        }
        Err(_) => Err(RowError::Broken("an index that does not open")),
    }
}
