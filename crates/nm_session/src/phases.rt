//! The phases of a session, one after the other, over the index that `session` has opened; the replies of each are printed at its end.

ghost use Rattle.std.specs.Prelude.{◌≡◌, ◌+◌, ◌<◌, ◌≤◌, [], None, Some, length, slice_get};
ghost use Rattle.std.specs.List.{All, AllZip};
ghost use Rattle.nm_base.specs.Limits.{max_commits};
ghost use Rattle.nm_dates.specs.Seconds.{IsMoment};
ghost use Rattle.nm_disk.specs.Observed.{ObservedDisk};
ghost use Rattle.nm_model_index.specs.declared.base.Base.{Base};
ghost use Rattle.nm_lanes.specs.declared.script.Phase.{Phase};
ghost use Rattle.nm_line.specs.Desk.{Stands};
ghost use Rattle.nm_line.specs.Line.{IsEven, place_at};
ghost use Rattle.nm_phase.specs.Taken.{AreTaken};
ghost use Rattle.nm_phase.specs.FirstLane.{HasWorked, IsReady};
ghost use Rattle.nm_session.specs.Phases.{HasRunPhases};
ghost use Rattle.nm_phase.specs.Observations.{HasSeen, IsLaneAt};
ghost use Rattle.nm_phase.specs.Stage.{KeepsLoans, StaysDurable, place_in};
ghost use Rattle.nm_phase.specs.Turns.{planned_phase};
ghost use Rattle.nm_session.specs.Turns.{places_in};
ghost use Rattle.nm_trace.specs.Trace.{steps_of};
ghost use Rattle.nm_trace.specs.ReservedLog.{HasRoom, HasSpare};
ghost use Rattle.nm_writer.specs.Durable.{IsDurable};

use crate::laws::{first_laws, turn_laws};
use crate::print::print_rest;
use nm_disk::Disk;
use nm_io::Sink;
use nm_log::SessionLog;
use nm_maildir::Maildir;
use nm_phase::{Asked, ReaderLane, Stage};
use nm_trace::{ReservedLog, push_steps};
use nm_workers::Gate;
use nm_writer::Writer;
use std::sync::Wait;
use std::thread::Threads;

/// The most bytes that all lines may show.
pub(crate) const MAX_SHOWN: u64 = 67_108_864;

/// What a session holds once its index is open: the writer, and the room for its log.
pub(crate) struct OpenSession {
    pub writer: Writer,
    pub reserved: ReservedLog,
}

/// Runs the phases over an index that was opened. It answers how many bytes may still be shown, and whether the output failed.
pub(crate) fn run_all<R: Threads + Wait + Sync, M: Maildir, D: Disk, O: Sink, G: Gate + Sync>(
    asked: &Asked<'_, '_, R, G>,
    lanes: &mut [ReaderLane<'_>],
    opened: &mut OpenSession,
    mail: &mut M,
    disk: &mut D,
    out: &mut O,
) -> (u64, bool)
    requires count { asked.now.count ≡ length asked.now.phases.now }
    requires reserved { HasRoom (places_in asked.now.phases.now) opened.old.reserved }
    requires fresh { (opened.old.writer.begun ≡ []) × (opened.old.writer.acked ≡ []) × (opened.old.writer.closed ≡ None) }
    requires published { (opened.old.writer.published.opening ≡ opened.old.writer.shown) × (opened.old.writer.published.commits ≡ []) }
    requires lanes { All (IsLaneAt asked.now.crew.now.setting.now.moment asked.now.phases.now 0 opened.old.writer.published.book) lanes.old }
    requires stands { Stands opened.old.writer (D.observed disk.old) }
    ensures run { HasRunPhases asked.now.crew.now.setting.now.moment asked.now.session result.1 opened.old.writer.shown (M.observed mail.old) (D.observed disk.old).faults
        asked.now.phases.now opened.new.reserved (place_at opened.new.writer (M.observed mail.new) (D.observed disk.new) result.0) (O.observed out.old) (O.observed out.new) }
    ensures steps { opened.new.reserved.steps ≡ opened.old.reserved.steps }
    ensures durable { (entry : ObservedDisk) (opening : Base) → IsDurable entry opening (D.observed disk.old) opened.old.writer → IsDurable entry opening (D.observed disk.new) opened.new.writer }
{
    let mut stage = Stage {
        reserved: &mut opened.reserved,
        writer: &mut opened.writer,
        mail,
        disk,
        out,
    };
    run_phases(&mut stage, asked, lanes)
}

/// Runs the phases in their order, and notes and prints each. It answers how many bytes may still be shown, and whether the output failed;
/// then no further phase is run.
fn run_phases<R: Threads + Wait + Sync, M: Maildir, D: Disk, O: Sink, G: Gate + Sync>(
    stage: &mut Stage<'_, '_, '_, '_, '_, M, D, O>,
    asked: &Asked<'_, '_, R, G>,
    lanes: &mut [ReaderLane<'_>],
) -> (u64, bool)
    requires count { asked.now.count ≡ length asked.now.phases.now }
    requires reserved { HasRoom (places_in asked.now.phases.now) stage.old.reserved.now }
    requires fresh { (stage.old.writer.now.begun ≡ []) × (stage.old.writer.now.acked ≡ []) × (stage.old.writer.now.closed ≡ None) }
    requires published { (stage.old.writer.now.published.opening ≡ stage.old.writer.now.shown) × (stage.old.writer.now.published.commits ≡ []) }
    requires lanes { All (IsLaneAt asked.now.crew.now.setting.now.moment asked.now.phases.now 0 stage.old.writer.now.published.book) lanes.old }
    requires stands { Stands stage.old.writer.now (D.observed stage.old.disk.now) }
    ensures run { HasRunPhases asked.now.crew.now.setting.now.moment asked.now.session result.1 stage.old.writer.now.shown (M.observed stage.old.mail.now) (D.observed stage.old.disk.now).faults
        asked.now.phases.now stage.new.reserved.now (place_in M.observed D.observed stage.new result.0) (O.observed stage.old.out.now) (O.observed stage.new.out.now) }
    ensures steps { stage.new.reserved.now.steps ≡ stage.old.reserved.now.steps }
    ensures durable { StaysDurable D.observed stage.old stage.new }
    ensures loans { KeepsLoans stage.old stage.new }
{
    first_laws();
    turn_laws();
    let mut left = MAX_SHOWN;
    let mut printed = 0;
    'phases: for number in 0..asked.count {
        left = stage.run_one(asked, number, lanes, left);
        match print_rest(
            asked.session,
            stage.reserved.logs.as_slice(),
            printed,
            stage.out,
        ) {
            Some(now) => printed = now,
            None => return (left, true),
        }
    }
    (left, false)
}

/// The log of the lines that were noted; it takes no memory.
pub(crate) fn finish<R: Wait>(rt: &R, reserved: ReservedLog, writer: Writer) -> SessionLog
    requires none { reserved.steps.0 ≡ [] }
    requires room { length (steps_of reserved.marks.0 writer.begun) ≤ reserved.steps.1 }
    ensures { result ≡ record { steps = steps_of reserved.marks.0 writer.begun; lines = reserved.logs.0; acked = writer.acked } }
{
    let ReservedLog {
        logs,
        marks,
        steps,
        fallbacks: _,
    } = reserved;
    let mut steps = steps;
    let (begun, acked) = writer.finish(rt);
    push_steps(marks.into_many(), begun, &mut steps);
    SessionLog {
        steps: steps.into_many(),
        lines: logs.into_many(),
        acked,
    }
}
