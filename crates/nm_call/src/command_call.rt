//! A single command, for `prepared_call`: its words become a request, the lines that this asks for are read, and all of it is prepared.

ghost use Rattle.std.specs.Prelude.{◌≡◌, ℕ, List, IfErr, IfOk, None, false, true};
ghost use Rattle.nm_history.specs.Call.{call_fault, is_session};
ghost use Rattle.nm_history.specs.Refusals.{TakesInput};
ghost use Rattle.nm_log.specs.ParsedLine.{parse_single, reads_input};
ghost use Rattle.nm_log.specs.declared.line_parser.ParsedLine.TheVariants as asked;
ghost use Rattle.nm_call.specs.PreparedCall.{HasError, IsReadAs};

use crate::prepared_call::{CallError, PreparedCall, read_input};
use nm_base::{Many, Text};
use nm_history::a_call_that_reads_nothing_is_not_refused_for_its_input;
use nm_io::Source;
use nm_log::{Outcome, ParsedLine, Refusal, parse_single, reads_input};
use nm_model_answer::Request;
use nm_prepare::{AskError, prepare};
use std::alloc::Global;

/// Reads a single command, and the lines that it asks for: it is one line of one phase.
pub(crate) fn read_command<I: Source>(
    alloc: Global,
    words: &[Text],
    input: &mut I,
) -> Result<PreparedCall, CallError>
    requires { is_session words.now ≡ false }
    ensures { IsReadAs words.now (I.observed input.old) (I.observed input.new) result }
{
    match parse_single(alloc, words)? {
        ParsedLine::Usage { word, kind } => Err(CallError::Unasked(Outcome::Usage { word, kind })),
        ParsedLine::Request(request) => read_request(alloc, request, input),
    }
}

/// Prepares a request over the lines that it asks for.
fn read_request<I: Source>(
    alloc: Global,
    request: Request,
    input: &mut I,
) -> Result<PreparedCall, CallError>
    ensures { (words : List (List ℕ)) → is_session words ≡ false → parse_single words ≡ asked.Request request
        → IsReadAs words (I.observed input.old) (I.observed input.new) result }
{
    a_call_that_reads_nothing_is_not_refused_for_its_input();
    let lines = read_lines(alloc, &request, input)?;
    match prepare(alloc, request, lines.as_slice()) {
        Ok(prepared) => Ok(PreparedCall::Command(prepared)),
        Err(AskError::Refused(outcome)) => Err(CallError::Unasked(outcome)),
        Err(AskError::NoMemory) => Err(CallError::Refused(Refusal::NoMemory)),
    }
}

/// Reads the lines that a request asks for; where it asks for none the input is left as it is.
fn read_lines<I: Source>(
    alloc: Global,
    request: &Request,
    input: &mut I,
) -> Result<Many<u8>, CallError>
    ensures takes { IfOk result (λ lines. TakesInput (reads_input request.now) false lines (I.observed input.old) (I.observed input.new)) }
    ensures reads { IfErr result (λ _. reads_input request.now ≡ true) }
    ensures err { IfErr result (λ error. (words : List (List ℕ)) → is_session words ≡ false → call_fault words ≡ None → parse_single words ≡ asked.Request request.now
        → HasError words (I.observed input.old) (I.observed input.new) error) }
{
    if !reads_input(request) {
        return Ok(Many::new(alloc));
    }
    let lines = read_input(alloc, input)?;
    Ok(lines)
}
