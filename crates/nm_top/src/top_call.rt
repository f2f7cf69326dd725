//! The top call: its words and its input are read, and it is run; `program` makes it.

ghost use Rattle.std.specs.Prelude.{◌≡◌, ◌≤◌, pos, ◌≤ℤ◌};
ghost use Rattle.nm_base.specs.Limits.{max_date};
ghost use Rattle.nm_history.specs.Call.{call_of, devices};
ghost use Rattle.nm_history.specs.Complete.{IsComplete};
ghost use Rattle.nm_top.specs.Drill.{CallHistory, is_drill};

use crate::devices::Devices;
use crate::drill::drill;
use nm_base::Text;
use nm_call::{is_first, read_call};
use nm_disk::Disk;
use nm_history::a_history_is_complete;
use nm_io::{Sink, Source};
use nm_log::{Crew, Done, Setting};
use nm_maildir::Maildir;
use nm_workers::Gate;
use std::alloc::Global;
use std::sync::Wait;
use std::thread::Threads;

/// Runs the command that the words name over the index that the disk holds and the mail folder. `session` reads a script from `input`, runs its phases, and at the end
/// of each prints the replies of its lines, each after a header, to `out`; where that fails it runs no further one. `drill` runs a session over a store, an index and
/// a script of its own, all in memory, and prints a summary of it. Any other is run as the one line, over the lines of `input` where it reads some, and its reply is
/// alone. `err` gains at most one line. It takes what memory it needs. It may wait: as readers leave a snapshot, as the lanes of a phase are joined, and as an
/// opening, a `new` or a large commit joins its workers. Each lane of a script passes the gate under its number before its work in a phase, and under that and 16
/// after it; a single command passes none. A gate changes no answer.
pub fn notmuch<
    R: Threads + Wait + Sync,
    M: Maildir,
    D: Disk,
    I: Source,
    O: Sink,
    E: Sink,
    G: Gate + Sync,
>(
    rt: &R,
    alloc: Global,
    words: &[Text],
    setting: &Setting,
    mail: &mut M,
    disk: &mut D,
    input: &mut I,
    out: &mut O,
    err: &mut E,
    gate: &G,
) -> Done
    requires some_worker { 1 ≤ setting.now.workers }
    requires few_workers { setting.now.workers ≤ 16 }
    requires from_1970 { pos 0 ≤ℤ setting.now.moment }
    requires moment { setting.now.moment ≤ℤ pos max_date }

    // The statement of a call, over its actual log.
    ensures history { CallHistory (call_of words.now setting.now
        (devices (M.observed mail.old) (D.observed disk.old) (I.observed input.old) (O.observed out.old) (E.observed err.old))
        (devices (M.observed mail.new) (D.observed disk.new) (I.observed input.new) (O.observed out.new) (E.observed err.new)) result) }

    // Where nothing is in its way, the lines are answered to their end.
    ensures complete { IsComplete (call_of words.now setting.now
        (devices (M.observed mail.old) (D.observed disk.old) (I.observed input.old) (O.observed out.old) (E.observed err.old))
        (devices (M.observed mail.new) (D.observed disk.new) (I.observed input.new) (O.observed out.new) (E.observed err.new)) result) }
{
    let crew = Crew::new(rt, alloc, setting);
    if is_drill(words) {
        return drill(&crew, gate, words, out, err);
    }
    a_history_is_complete();
    let call = read_call(alloc, words, input);
    let mut devices = Devices {
        mail,
        disk,
        out,
        err,
    };
    devices.run(&crew, gate, call)
}

/// Whether the words ask for a drill.
fn is_drill(words: &[Text]) -> bool
    ensures { result ≡ is_drill words.now }
{
    is_first(words, "drill")
}
