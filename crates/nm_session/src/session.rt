//! A session, for `nm_top`: the index is opened, and the phases of the script are run over it.

ghost use Rattle.std.specs.Prelude.{◌≡◌, IfErr, IfOk};
ghost use Rattle.nm_history.specs.Call.{devices};
ghost use Rattle.nm_io.specs.Observed.{ObservedSink, ObservedStream};
ghost use Rattle.nm_session.specs.Session.{IsPlanned, IsSession, IsUnopened};

use crate::phases::{OpenSession, finish, run_all};
use crate::plan::{Plan, lanes_with, prepare};
use nm_base::NoMemory;
use nm_disk::Disk;
use nm_history::{a_refused_opening_keeps_the_index, a_session_keeps_its_commits};
use nm_io::Sink;
use nm_lanes::Phase;
use nm_log::{Crew, SessionLog};
use nm_maildir::Maildir;
use nm_phase::Asked;
use nm_replay::OpenError;
use nm_workers::Gate;
use nm_writer::{Opened, Writer};
use std::sync::Wait;
use std::thread::Threads;

/// Opens the index that the disk holds, and runs the phases over it and the mail folder: of each all lanes at once, lane 0 here and
/// each other lane that the script names in a thread of its own, with a reader; then it prints the replies of the phase, those of a
/// session after headers. Where the output fails no further phase is run. It tells the log and whether the output failed. All
/// memory of the log is taken before the index is opened; a line that runs out of memory says so, and the next one runs. No reader
/// ever waits; a commit may wait until readers have left the snapshot from before.
pub fn run_session<R: Threads + Wait + Sync, M: Maildir, D: Disk, O: Sink, G: Gate + Sync>(
    crew: &Crew<'_, R>,
    gate: &G,
    session: bool,
    phases: &[Phase],
    mail: &mut M,
    disk: &mut D,
    out: &mut O,
) -> Result<(SessionLog, bool), OpenError>
    ensures ran { IfOk result (λ ran. (input : ObservedStream) (err : ObservedSink) → IsSession crew.now.setting.now.moment (devices (M.observed mail.old) (D.observed disk.old) input (O.observed out.old) err)
        phases.now session (M.observed mail.new) (D.observed disk.new) (O.observed out.new) ran.1 ran.0) }
    ensures refused { IfErr result (IsUnopened (M.observed mail.old) (M.observed mail.new) (D.observed disk.old) (D.observed disk.new)) }
    ensures unprinted { IfErr result (λ _. O.observed out.new ≡ O.observed out.old) }
{
    a_session_keeps_its_commits();
    a_refused_opening_keeps_the_index();
    let Plan {
        count,
        named,
        lanes,
        reserved,
    } = match prepare(crew.alloc, phases) {
        Ok(plan) => plan,
        Err(NoMemory) => return Err(OpenError::NoMemory),
    };
    match Writer::open(crew.rt, crew.alloc, disk, named, crew.setting.workers) {
        Ok(Opened { writer, readers }) => {
            let asked = Asked {
                crew,
                gate,
                session,
                phases,
                count,
            };
            let mut opened = OpenSession { writer, reserved };
            let mut lanes = lanes_with(crew.alloc, crew.setting, phases, readers, lanes);
            let (_, failed) = run_all(&asked, lanes.as_mut_slice(), &mut opened, mail, disk, out);
            let OpenSession { writer, reserved } = opened;
            Ok((finish(crew.rt, reserved, writer), failed))
        }
        Err(error) => Err(error),
    }
}
