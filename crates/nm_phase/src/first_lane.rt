//! The lines of lane 0 of a phase, which `stage` works in its own thread while the other lanes work in theirs.

ghost use Rattle.std.specs.Prelude.{◌≡◌};
ghost use Rattle.nm_line.specs.Desk.{KeepsLoans, place_of};
ghost use Rattle.nm_phase.specs.FirstLane.{HasWorked, IsReady};

use crate::line::{asked_line, run_line};
use nm_disk::Disk;
use nm_lanes::{LaneWork, ScriptLine};
use nm_line::Desk;
use nm_log::Crew;
use nm_maildir::Maildir;
use nm_trace::ReservedLog;
use std::sync::Wait;
use std::thread::Threads;

/// Lane 0 in a phase, with all that it works on. `left` is how many bytes may still be shown.
#[derive(Drop)]
pub(crate) struct FirstLane<'c, 'r, 'l, 'o, 'w, 'm, 'd, R, M, D> {
    pub(crate) crew: &'c Crew<'r, R>,
    pub(crate) phase: u32,
    pub(crate) lines: &'l [ScriptLine],
    pub(crate) reserved: &'o mut ReservedLog,
    pub(crate) desk: Desk<'w, 'm, 'd, M, D>,
    pub(crate) left: u64,
}

impl<R: Threads + Wait + Sync, M: Maildir, D: Disk> LaneWork
    for FirstLane<'_, '_, '_, '_, '_, '_, '_, R, M, D> {
    ghost use Rattle.std.specs.Thread.{IsSync};
    ghost use Rattle.nm_line.specs.Desk.{KeepsLoans, place_of};
    ghost use Rattle.nm_phase.specs.FirstLane.{HasWorked, IsReady};

    // The workers of a `new` share the runtime.
    ghost ready = { λ lane. IsSync R.row × IsReady lane.lines.now lane.reserved.now lane.desk.writer.now (D.observed lane.desk.disk.now) };

    ghost does = { λ before after. (after.reserved.ghost_name ≡ before.reserved.ghost_name) × KeepsLoans before.desk after.desk
        × HasWorked before.crew.now.setting.now.moment before.phase before.lines.now before.reserved.now (place_of M.observed D.observed before.desk before.left)
        (D.observed before.desk.disk.now) after.reserved.now (place_of M.observed D.observed after.desk after.left) (D.observed after.desk.disk.now) };

    fn seat(&self) -> u32 {
        0
    }

    fn work<S: Threads + Wait + Sync>(&mut self, _rt: &S) {
        let left = self.left;
        self.left = run_lines(
            self.crew,
            self.phase,
            self.lines,
            left,
            self.reserved,
            &mut self.desk,
        );
    }
}

/// Runs the lines of lane 0 among these, one after the other. It answers how many bytes may still be shown.
fn run_lines<R: Threads + Wait + Sync, M: Maildir, D: Disk>(
    crew: &Crew<'_, R>,
    phase: u32,
    lines: &[ScriptLine],
    left: u64,
    reserved: &mut ReservedLog,
    desk: &mut Desk<'_, '_, '_, M, D>,
) -> u64
    requires ready { IsReady lines.now reserved.old desk.old.writer.now (D.observed desk.old.disk.now) }
    ensures worked { HasWorked crew.now.setting.now.moment phase lines.now reserved.old (place_of M.observed D.observed desk.old left) (D.observed desk.old.disk.now)
        reserved.new (place_of M.observed D.observed desk.new result) (D.observed desk.new.disk.now) }
    ensures loans { KeepsLoans desk.old desk.new }
{
    let mut left = left;
    'lines: for line in lines {
        if line.lane != 0 {
            continue;
        }
        let asked = asked_line(crew.alloc, line);
        left = run_line(crew, phase, asked, left, reserved, desk);
    }
    left
}
