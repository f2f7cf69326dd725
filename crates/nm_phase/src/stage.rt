//! A phase over the index that `session` of `nm_session` has opened: all lanes at once, and then what the other lanes read is noted.

ghost use Rattle.std.specs.Prelude.{◌≡◌, ◌+◌, ◌<◌, ◌≤◌, Some, length, slice_get};
ghost use Rattle.std.specs.List.{All, AllZip};
ghost use Rattle.nm_base.specs.Limits.{max_commits};
ghost use Rattle.nm_dates.specs.Seconds.{IsMoment};
ghost use Rattle.nm_lanes.specs.declared.script.Phase.{Phase};
ghost use Rattle.nm_line.specs.Desk.{Stands};
ghost use Rattle.nm_line.specs.Line.{IsEven};
ghost use Rattle.nm_phase.specs.FirstLane.{HasWorked, IsReady};
ghost use Rattle.nm_phase.specs.Observations.{HasSeen, IsLaneAt};
ghost use Rattle.nm_phase.specs.Stage.{KeepsLoans, StaysDurable, place_in};
ghost use Rattle.nm_phase.specs.Taken.{AreTaken};
ghost use Rattle.nm_phase.specs.Turns.{planned_phase};
ghost use Rattle.nm_trace.specs.ReservedLog.{HasSpare};

use crate::barrier::settle;
use crate::first_lane::FirstLane;
use crate::reader_lane::ReaderLane;
use nm_disk::Disk;
use nm_io::Sink;
use nm_lanes::{Phase, ScriptLine, run_phase};
use nm_line::Desk;
use nm_log::Crew;
use nm_maildir::Maildir;
use nm_trace::ReservedLog;
use nm_workers::Gate;
use nm_writer::Writer;
use std::sync::Wait;
use std::thread::Threads;

/// What a session is asked, and by whom it is run.
#[derive(Drop)]
pub struct Asked<'s, 'r, R, G> {
    pub crew: &'s Crew<'r, R>,
    pub gate: &'s G,
    /// Whether each reply is printed after a header.
    pub session: bool,
    pub phases: &'s [Phase],
    /// How many phases there are.
    pub count: u32,
}

/// A session over an index that was opened: its log so far, and what its phases are run over.
#[derive(Drop)]
pub struct Stage<'v, 'w, 'm, 'd, 'o, M, D, O> {
    pub reserved: &'v mut ReservedLog,
    pub writer: &'w mut Writer,
    pub mail: &'m mut M,
    pub disk: &'d mut D,
    pub out: &'o mut O,
}

impl<M: Maildir, D: Disk, O: Sink> Stage<'_, '_, '_, '_, '_, M, D, O> {
    /// Runs one phase: all lanes at once; then what the others read is noted. It answers how many bytes may still be shown.
    pub fn run_one<R: Threads + Wait + Sync, G: Gate + Sync>(
        &mut self,
        asked: &Asked<'_, '_, R, G>,
        number: u32,
        lanes: &mut [ReaderLane<'_>],
        left: u64,
    ) -> u64
        requires number { number < length asked.now.phases.now }
        requires spare { (phase : Phase) → slice_get asked.now.phases.now number ≡ Some phase → HasSpare (length (planned_phase number phase)) (length self.old.writer.now.begun) self.old.reserved.now }
        requires even { IsEven self.old.writer.now }
        requires few { length self.old.writer.now.begun ≤ max_commits }
        requires lanes { All (IsLaneAt asked.now.crew.now.setting.now.moment asked.now.phases.now number self.old.writer.now.published.book) lanes.old }
        requires stands { Stands self.old.writer.now (D.observed self.old.disk.now) }
        ensures taken { (phase : Phase) → slice_get asked.now.phases.now number ≡ Some phase
            → AreTaken asked.now.crew.now.setting.now.moment (planned_phase number phase) (place_in M.observed D.observed self.old left) self.old.reserved.now self.new.reserved.now
            (place_in M.observed D.observed self.new result) }
        ensures lanes { All (IsLaneAt asked.now.crew.now.setting.now.moment asked.now.phases.now (number + 1) self.new.writer.now.published.book) lanes.new }
        ensures stands { Stands self.new.writer.now (D.observed self.new.disk.now) }
        ensures durable { StaysDurable D.observed self.old self.new }
        ensures loans { KeepsLoans self.old self.new }
        ensures out { O.observed self.new.out.now ≡ O.observed self.old.out.now }
    {
        let lines = asked.phases[number as usize].lines.as_slice();
        let left = self.work(asked, number, lines, lanes, left);
        settle(asked.crew, number, lines, lanes, self.reserved, self.writer);
        self.reserved.note_barrier();
        left
    }

    /// Works all lanes at once. It answers how many bytes may still be shown.
    fn work<R: Threads + Wait + Sync, G: Gate + Sync>(
        &mut self,
        asked: &Asked<'_, '_, R, G>,
        phase: u32,
        lines: &[ScriptLine],
        lanes: &mut [ReaderLane<'_>],
        left: u64,
    ) -> u64
        requires ready { IsReady lines.now self.old.reserved.now self.old.writer.now (D.observed self.old.disk.now) }
        requires lanes { All (λ lane. IsMoment lane.setting.now.moment) lanes.old }
        ensures worked { HasWorked asked.now.crew.now.setting.now.moment phase lines.now self.old.reserved.now (place_in M.observed D.observed self.old left) (D.observed self.old.disk.now)
            self.new.reserved.now (place_in M.observed D.observed self.new result) (D.observed self.new.disk.now) }
        ensures seen { AllZip HasSeen lanes.old lanes.new }
        ensures loans { KeepsLoans self.old self.new }
        ensures out { O.observed self.new.out.now ≡ O.observed self.old.out.now }
    {
        let desk = Desk {
            writer: self.writer,
            mail: self.mail,
            disk: self.disk,
        };
        let mut first = FirstLane {
            crew: asked.crew,
            phase,
            lines,
            reserved: self.reserved,
            desk,
            left,
        };
        run_phase(asked.crew.rt, &mut first, lanes, asked.gate);
        first.left
    }
}
