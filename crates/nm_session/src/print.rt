//! What is printed at the end of a phase: the replies of its lines. `phases` and `command` call it.

ghost use Rattle.std.specs.Prelude.{◌≤◌, length};
ghost use Rattle.nm_history.specs.PrintedOut.{printed_by};
ghost use Rattle.nm_io.specs.Observed.{StreamAppends};
ghost use Rattle.nm_session.specs.PrintedReplies.{PrintsRest};

use nm_io::Sink;
use nm_log::{LineLog, print_lines, print_replies};

/// Prints the replies after the first n, which are printed already. It says how many then are, or nothing where the output failed.
pub(crate) fn print_rest<O: Sink>(
    session: bool,
    logs: &[LineLog],
    printed: usize,
    out: &mut O,
) -> Option<usize>
    requires { printed ≤ length logs.now }
    ensures { PrintsRest session logs.now printed (O.observed out.old) (O.observed out.new) result }
{
    if print_all(out, session, logs.split_at(printed).1) {
        return None;
    }
    Some(logs.len())
}

/// Prints the replies, those of a session after their headers, and says whether that failed.
pub(crate) fn print_all<O: Sink>(out: &mut O, session: bool, logs: &[LineLog]) -> bool
    ensures { StreamAppends result (O.observed out.old) (O.observed out.new) (printed_by session logs.now) }
{
    if session {
        return print_lines(out, logs).is_err();
    }
    print_replies(out, logs).is_err()
}
