//! A call as it is read, for `devices` of `nm_top` to run: the phases of its script, what its single command asks for, or why it has neither.

ghost use Rattle.std.specs.Prelude.{◌≡◌, ℕ, List, IfErr, IfOk, true, None};
ghost use Rattle.nm_history.specs.Call.{call_fault, call_reads, is_first, is_session};
ghost use Rattle.nm_history.specs.Refusals.{IsRead};
ghost use Rattle.nm_call.specs.PreparedCall.{HasError, IsReadAs, take_refusal};

use crate::command_call::read_command;
use crate::session_call::read_session;
use nm_base::{Limit, Many, NoMemory, Text};
use nm_io::{Source, TakeError, take_all};
use nm_lanes::Phase;
use nm_log::{Outcome, Refusal};
use nm_prepare::Prepared;
use std::alloc::Global;

/// The most bytes of an input.
const MAX_INPUT: u64 = 67_108_864;

/// The phases of a script; or what a single command asks for, which is the one line of one phase.
#[derive(Drop)]
pub enum PreparedCall {
    Script(Many<Phase>),
    Command(Prepared),
}

/// Why a call runs no phase.
#[derive(Drop)]
pub enum CallError {
    /// It is refused as a whole.
    Refused(Refusal),
    /// The one line of a single command ends so.
    Unasked(Outcome),
}

impl From<NoMemory> for CallError {
    ghost use Rattle.nm_log.specs.declared.refusal.Refusal.TheVariants as refusals;
    ghost use Rattle.nm_call.specs.declared.prepared_call.CallError.TheVariants as errors;

    ghost from_gives = { λ _ e. e ≡ errors.Refused refusals.NoMemory };

    fn from(_: NoMemory) -> CallError {
        CallError::Refused(Refusal::NoMemory)
    }
}

/// Reads a session or a single command, before another device than its input is asked.
pub fn read_call<I: Source>(
    alloc: Global,
    words: &[Text],
    input: &mut I,
) -> Result<PreparedCall, CallError>
    ensures { IsReadAs words.now (I.observed input.old) (I.observed input.new) result }
{
    if is_session(words) {
        return read_session(alloc, words, input);
    }
    read_command(alloc, words, input)
}

/// Whether the words begin a session.
fn is_session(words: &[Text]) -> bool
    ensures { result ≡ is_session words.now }
{
    is_first(words, "session")
}

/// Whether this is the first word.
pub fn is_first(words: &[Text], word: &str) -> bool
    ensures { result ≡ is_first word.now words.now }
{
    match words.first() {
        Some(first) => first.as_str() == word,
        None => false,
    }
}

/// Reads the input to its end.
pub(crate) fn read_input<I: Source>(alloc: Global, input: &mut I) -> Result<Many<u8>, CallError>
    ensures ok { IfOk result (λ bytes. IsRead bytes (I.observed input.old) (I.observed input.new)) }
    ensures err { IfErr result (λ error. (words : List (List ℕ)) → call_fault words ≡ None → call_reads words ≡ true
        → HasError words (I.observed input.old) (I.observed input.new) error) }
{
    match take_all(alloc, input, MAX_INPUT) {
        Ok(bytes) => Ok(bytes),
        Err(error) => Err(CallError::Refused(take_refusal(error))),
    }
}

/// An error of reading the input, as the call is refused for it.
fn take_refusal(error: TakeError) -> Refusal
    ensures { result ≡ take_refusal error }
{
    match error {
        TakeError::ReadFault => Refusal::ReadFault,
        TakeError::TooLong => Refusal::Limit(Limit::InputBytes),
        TakeError::NoMemory => Refusal::NoMemory,
    }
}
