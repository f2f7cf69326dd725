//! A session, for `prepared_call` and `drill` of `nm_top`: its words are tested, and its script is read.

ghost use Rattle.std.specs.Prelude.{◌≡◌, ℕ, List, None, true};
ghost use Rattle.nm_history.specs.Call.{call_fault, is_session};
ghost use Rattle.nm_call.specs.PreparedCall.{IsReadAs};

use crate::prepared_call::{CallError, PreparedCall, read_input};
use nm_base::{Limit, Text};
use nm_command::{CommandError, command};
use nm_io::Source;
use nm_lanes::{ScriptError, read_script};
use nm_log::Refusal;
use std::alloc::Global;

/// Tests the words of a session, and reads its script.
pub(crate) fn read_session<I: Source>(
    alloc: Global,
    words: &[Text],
    input: &mut I,
) -> Result<PreparedCall, CallError>
    requires session { is_session words.now ≡ true }
    ensures { IsReadAs words.now (I.observed input.old) (I.observed input.new) result }
{
    match command(alloc, words) {
        Ok(_) => read_phases(alloc, input),
        Err(CommandError::Usage { word, kind }) => {
            Err(CallError::Refused(Refusal::Usage { word, kind }))
        }
        Err(CommandError::NoMemory) => Err(CallError::Refused(Refusal::NoMemory)),
    }
}

/// Reads a script, whatever the words of its session.
pub fn read_phases<I: Source>(alloc: Global, input: &mut I) -> Result<PreparedCall, CallError>
    ensures { (words : List (List ℕ)) → is_session words ≡ true → call_fault words ≡ None
        → IsReadAs words (I.observed input.old) (I.observed input.new) result }
{
    let bytes = read_input(alloc, input)?;
    match read_script(alloc, bytes.as_slice()) {
        Ok(script) => Ok(PreparedCall::Script(script.phases)),
        Err(ScriptError::Limit(_)) => Err(CallError::Refused(Refusal::Limit(Limit::Lines))),
        Err(ScriptError::NoMemory) => Err(CallError::Refused(Refusal::NoMemory)),
    }
}
