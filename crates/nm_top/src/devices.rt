//! The devices of a call once it was read, for `top_call` and `drill`: its phases are run over them, or it is refused.

ghost use Rattle.std.specs.Prelude.{◌≡◌, ℕ, List};
ghost use Rattle.nm_history.specs.Call.{call_of};
ghost use Rattle.nm_history.specs.History.{History};
ghost use Rattle.nm_io.specs.Observed.{ObservedStream};
ghost use Rattle.nm_prepare.specs.Prepared.{AsksAlone};
ghost use Rattle.nm_top.specs.Devices.{KeepsLoans, devices_of};
ghost use Rattle.nm_call.specs.PreparedCall.{HasPhases, IsReadAs, WasRead};
ghost use Rattle.nm_call.specs.declared.prepared_call.PreparedCall.TheVariants.{Command, Script};

use crate::call_end::{end_run, refuse, refuse_line};
use crate::laws::refusal_laws;
use nm_base::Many;
use nm_call::{CallError, PreparedCall};
use nm_disk::Disk;
use nm_io::Sink;
use nm_lanes::Phase;
use nm_log::{Crew, Done};
use nm_maildir::Maildir;
use nm_prepare::Prepared;
use nm_session::{run_command, run_session};
use nm_workers::Gate;
use std::sync::Wait;
use std::thread::Threads;

/// The devices of a call but its input, which is read before any of them is asked.
#[derive(Drop)]
pub(crate) struct Devices<'m, 'd, 'o, 'e, M, D, O, E> {
    pub(crate) mail: &'m mut M,
    pub(crate) disk: &'d mut D,
    pub(crate) out: &'o mut O,
    pub(crate) err: &'e mut E,
}

impl<M: Maildir, D: Disk, O: Sink, E: Sink> Devices<'_, '_, '_, '_, M, D, O, E> {
    /// Runs a call that was read so, or says why it is refused.
    pub(crate) fn run<R: Threads + Wait + Sync, G: Gate + Sync>(
        &mut self,
        crew: &Crew<'_, R>,
        gate: &G,
        call: Result<PreparedCall, CallError>,
    ) -> Done
        requires { WasRead call }
        ensures history { (words : List (List ℕ)) (old new : ObservedStream) → IsReadAs words old new call → History (call_of words crew.now.setting.now
            (devices_of M.observed D.observed O.observed E.observed old self.old) (devices_of M.observed D.observed O.observed E.observed new self.new) result) }
        ensures loans { KeepsLoans self.old self.new }
    {
        refusal_laws();
        match call {
            Ok(PreparedCall::Script(phases)) => self.run_script(crew, gate, phases),
            Ok(PreparedCall::Command(prepared)) => self.run_single(crew, prepared),
            Err(CallError::Unasked(outcome)) => refuse_line(
                crew.alloc,
                self.err,
                outcome,
                self.mail.faults(),
                self.disk.faults(),
            ),
            Err(CallError::Refused(refusal)) => refuse(crew.alloc, self.err, &refusal),
        }
    }

    /// Runs the phases of a script over the index that the disk holds, with the replies of each printed at its end, and says how it ended.
    fn run_script<R: Threads + Wait + Sync, G: Gate + Sync>(
        &mut self,
        crew: &Crew<'_, R>,
        gate: &G,
        phases: Many<Phase>,
    ) -> Done
        ensures history { (words : List (List ℕ)) (old new : ObservedStream) → HasPhases words old new (Script phases) → History (call_of words crew.now.setting.now
            (devices_of M.observed D.observed O.observed E.observed old self.old) (devices_of M.observed D.observed O.observed E.observed new self.new) result) }
        ensures loans { KeepsLoans self.old self.new }
    {
        refusal_laws();
        let phases = phases.as_slice();
        let run = run_session(crew, gate, true, phases, self.mail, self.disk, self.out);
        end_run(crew.alloc, true, run, self.err)
    }

    /// Runs a single command over the index that the disk holds, prints its reply, and says how it ended.
    fn run_single<R: Threads + Wait + Sync>(
        &mut self,
        crew: &Crew<'_, R>,
        prepared: Prepared,
    ) -> Done
        requires { (words : List (List ℕ)) × ((input : List ℕ) × AsksAlone words input prepared) }
        ensures history { (words : List (List ℕ)) (old new : ObservedStream) → HasPhases words old new (Command prepared) → History (call_of words crew.now.setting.now
            (devices_of M.observed D.observed O.observed E.observed old self.old) (devices_of M.observed D.observed O.observed E.observed new self.new) result) }
        ensures loans { KeepsLoans self.old self.new }
    {
        refusal_laws();
        let run = run_command(crew, prepared, self.mail, self.disk, self.out);
        end_run(crew.alloc, false, run, self.err)
    }
}
