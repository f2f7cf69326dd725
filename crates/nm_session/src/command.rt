//! A single command, for `nm_top`: the index is opened, and what it asks for is done as the one line of its one phase.

ghost use Rattle.std.specs.Prelude.{◌≡◌, ◌≤◌, ◌∷◌, ℕ, List, [], false, length, IfErr, IfOk};
ghost use Rattle.nm_base.specs.Limits.{max_commits, max_mail_bytes};
ghost use Rattle.nm_disk.specs.Observed.{ObservedDisk};
ghost use Rattle.nm_history.specs.Call.{devices, single_phase};
ghost use Rattle.nm_model_index.specs.declared.base.Base.{Base};
ghost use Rattle.nm_io.specs.Observed.{ObservedSink, ObservedStream};
ghost use Rattle.nm_line.specs.Desk.{IsReady};
ghost use Rattle.nm_line.specs.Line.{place_at};
ghost use Rattle.nm_prepare.specs.Prepared.{AsksAlone};
ghost use Rattle.nm_lanes.specs.Lines.{in_lane};
ghost use Rattle.nm_session.specs.Alone.{HasRunAlone};
ghost use Rattle.nm_session.specs.Session.{IsSession, IsUnopened};
ghost use Rattle.nm_trace.specs.ReservedLog.{HasSpare};
ghost use Rattle.nm_writer.specs.Durable.{IsDurable};

use crate::laws::{first_laws, turn_laws};
use crate::phases::{MAX_SHOWN, finish};
use crate::print::print_all;
use nm_disk::Disk;
use nm_history::{a_refused_opening_keeps_the_index, a_session_keeps_its_commits};
use nm_io::Sink;
use nm_line::Desk;
use nm_log::{Crew, SessionLog};
use nm_maildir::Maildir;
use nm_phase::{AskedLine, run_line};
use nm_prepare::Prepared;
use nm_replay::OpenError;
use nm_trace::ReservedLog;
use nm_writer::{Opened, Writer};
use std::sync::Wait;
use std::thread::Threads;

/// Opens the index that the disk holds, runs the command over it and the mail folder, and prints its reply. It answers the log, and whether
/// the output failed. All memory of the log is taken before the index is opened.
pub fn run_command<R: Threads + Wait + Sync, M: Maildir, D: Disk, O: Sink>(
    crew: &Crew<'_, R>,
    prepared: Prepared,
    mail: &mut M,
    disk: &mut D,
    out: &mut O,
) -> Result<(SessionLog, bool), OpenError>
    requires { (words : List (List ℕ)) × ((input : List ℕ) × AsksAlone words input prepared) }
    ensures ran { (words : List (List ℕ)) (input : List ℕ) → AsksAlone words input prepared
        → IfOk result (λ ran. (source : ObservedStream) (err : ObservedSink) → IsSession crew.now.setting.now.moment (devices (M.observed mail.old) (D.observed disk.old) source (O.observed out.old) err)
        (single_phase words input ∷ []) false (M.observed mail.new) (D.observed disk.new) (O.observed out.new) ran.1 ran.0) }
    ensures refused { IfErr result (IsUnopened (M.observed mail.old) (M.observed mail.new) (D.observed disk.old) (D.observed disk.new)) }
    ensures unprinted { IfErr result (λ _. O.observed out.new ≡ O.observed out.old) }
{
    a_session_keeps_its_commits();
    a_refused_opening_keeps_the_index();
    first_laws();
    turn_laws();
    // The line, and the end of its phase.
    let Ok(mut reserved) = ReservedLog::new(crew.alloc, 2) else {
        return Err(OpenError::NoMemory);
    };
    match Writer::open(crew.rt, crew.alloc, disk, 0, crew.setting.workers) {
        Ok(opened) => {
            let Opened {
                mut writer,
                readers: _,
            } = opened;
            run_alone(crew, prepared, &mut reserved, &mut writer, mail, disk);
            let failed = print_all(out, false, reserved.logs.as_slice());
            Ok((finish(crew.rt, reserved, writer), failed))
        }
        Err(error) => Err(error),
    }
}

/// Runs the line, and ends its phase.
fn run_alone<R: Threads + Wait + Sync, M: Maildir, D: Disk>(
    crew: &Crew<'_, R>,
    prepared: Prepared,
    reserved: &mut ReservedLog,
    writer: &mut Writer,
    mail: &mut M,
    disk: &mut D,
)
    requires asked { (words : List (List ℕ)) × ((input : List ℕ) × AsksAlone words input prepared) }
    requires spare { HasSpare 2 (length writer.old.begun) reserved.old }
    requires few { length writer.old.begun ≤ max_commits }
    requires ready { IsReady writer.old (D.observed disk.old) }
    ensures ran { (words : List (List ℕ)) (input : List ℕ) → AsksAlone words input prepared
        → HasRunAlone crew.now.setting.now.moment (place_at writer.old (M.observed mail.old) (D.observed disk.old) max_mail_bytes) (in_lane 1 0 words input) reserved.old reserved.new writer.new (M.observed mail.new) (D.observed disk.new) }
    ensures durable { (entry : ObservedDisk) (opening : Base) → IsDurable entry opening (D.observed disk.old) writer.old → IsDurable entry opening (D.observed disk.new) writer.new }
{
    let mut desk = Desk { writer, mail, disk };
    let asked = AskedLine {
        lane: 0,
        number: 1,
        prepared: Ok(prepared),
    };
    let _ = run_line(crew, 0, asked, MAX_SHOWN, reserved, &mut desk);
    reserved.note_barrier();
}
