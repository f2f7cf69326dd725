//! A session, or the program before it, run over its devices: `session_rows` and `crash_rows` run each so.

use crate::devices::Folder;
use crate::disks::fail_at;
use crate::sessions::Session;
use nm_base::Many;
use nm_disk::MemDisk;
use nm_top::{Done, Setting, Start, notmuch, program};
use std::alloc::Global;
use std::mem;
use std::sync::Wait;
use std::thread::Threads;

/// 12:00 of 2024-01-01.
const MOMENT: i64 = 1_704_110_400;

const SETTING: Setting = Setting {
    moment: MOMENT,
    seed: 0,
    workers: 4,
};

/// What the program has beside its words.
const START: Start = Start {
    moment: MOMENT,
    seed: 0,
};

/// Runs the session over the disk.
pub fn run<R: Threads + Wait + Sync>(
    rt: &R,
    alloc: Global,
    session: &mut Session<'_>,
    disk: &mut MemDisk,
) -> Done {
    let failing = mem::replace(&mut session.disk_fails, Many::new(alloc));
    fail_at(disk, failing);
    match &mut session.folder {
        Folder::Opened(mail) => program(
            rt,
            alloc,
            &START,
            session.words.as_slice(),
            mail,
            disk,
            &mut session.input,
            &mut session.out,
            &mut session.err,
        ),
        Folder::Shifting(mail) => notmuch(
            rt,
            alloc,
            session.words.as_slice(),
            &SETTING,
            mail,
            disk,
            &mut session.input,
            &mut session.out,
            &mut session.err,
            &session.gate,
        ),
    }
}
