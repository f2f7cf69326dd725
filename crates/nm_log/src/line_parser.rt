//! What a line of a script or a single command asks for: `nm_line` reads each with it.

ghost use Rattle.std.specs.Prelude.{◌≡◌, IfOk};
ghost use Rattle.nm_command.specs.Requests.{request_of};
ghost use Rattle.nm_log.specs.ParsedLine.{asked_by, command_fault, fault_in_first, fault_in_others, fed, first_word, line_request, name_fault, parse_answer, parse_command, parse_line, parse_single, reads_input};

use nm_base::{NoMemory, Text, UsageKind};
use nm_command::{CommandError, CommandName, command, command_named};
use nm_lanes::ScriptLine;
use nm_model_answer::Request;
use std::alloc::Global;

/// What a line asks for, or what is wrong with it.
#[derive(Drop)]
pub enum ParsedLine {
    Request(Request),
    Usage { word: Text, kind: UsageKind },
}

/// Reads what a line asks for: one that reads no input has none.
pub fn parse_line(alloc: Global, line: &ScriptLine) -> Result<ParsedLine, NoMemory>
    ensures { IfOk result (λ asked. asked ≡ parse_line line.now) }
{
    let asked = asked_by(alloc, line)?;
    fed(alloc, line.input.as_slice(), asked)
}

/// Tells its flaw, or else reads its words.
fn asked_by(alloc: Global, line: &ScriptLine) -> Result<ParsedLine, NoMemory>
    ensures { IfOk result (λ asked. asked ≡ asked_by line.now) }
{
    let words = line.words.as_slice();
    match line.flaw {
        Some(kind) => refuse(alloc, kind, first_word(words)),
        None => parse_command(alloc, line.lane, words),
    }
}

/// The word at fault in a line with a flaw.
fn first_word(words: &[Text]) -> &str
    ensures { result.now ≡ first_word words.now }
{
    match words {
        [] => "",
        [word, ..] => word.as_str(),
    }
}

/// Reads what the words of a single command ask for, whatever its input.
pub fn parse_single(alloc: Global, words: &[Text]) -> Result<ParsedLine, NoMemory>
    ensures { IfOk result (λ asked. asked ≡ parse_single words.now) }
{
    parse_command(alloc, 0, words)
}

fn fed(alloc: Global, input: &[u8], asked: ParsedLine) -> Result<ParsedLine, NoMemory>
    ensures { IfOk result (λ read. read ≡ fed input.now asked) }
{
    match asked {
        ParsedLine::Request(request) => {
            if reads_input(&request) || input.is_empty() {
                return Ok(ParsedLine::Request(request));
            }
            refuse(alloc, UsageKind::Input, "|")
        }
        ParsedLine::Usage { word, kind } => Ok(ParsedLine::Usage { word, kind }),
    }
}

/// Whether a request reads lines from its input.
pub fn reads_input(request: &Request) -> bool
    ensures { result ≡ reads_input request.now }
{
    match request {
        Request::New | Request::Search(_) | Request::Dump(_) | Request::Show(_) => false,
        Request::Count(ask) => ask.batch,
        Request::Tag(ask) => ask.batch,
        Request::Restore(_) => true,
    }
}

fn refuse(alloc: Global, kind: UsageKind, word: &str) -> Result<ParsedLine, NoMemory>
    ensures { IfOk result (λ asked. asked ≡ ParsedLine.Usage word.now kind) }
{
    let word = Text::of(alloc, word)?;
    Ok(ParsedLine::Usage { word, kind })
}

/// Reads the words of a command in this lane.
fn parse_command(alloc: Global, lane: u32, words: &[Text]) -> Result<ParsedLine, NoMemory>
    ensures { IfOk result (λ asked. asked ≡ parse_command lane words.now) }
{
    match words {
        [] => refuse(alloc, UsageKind::Command, ""),
        [name, ..] => match name_fault(lane, name.as_str()) {
            Some(kind) => refuse(alloc, kind, name.as_str()),
            None => read_request(alloc, name.as_str(), words),
        },
    }
}

/// What keeps a command from a line of this lane, whatever follows its name.
fn name_fault(lane: u32, name: &str) -> Option<UsageKind>
    ensures { result ≡ name_fault lane name.now }
{
    match command_named(name) {
        Some(command) => command_fault(lane == 0, command),
        None => None,
    }
}

fn command_fault(first: bool, command: CommandName) -> Option<UsageKind>
    ensures { result ≡ command_fault first command }
{
    if first {
        return fault_in_first(command);
    }
    fault_in_others(command)
}

fn fault_in_first(command: CommandName) -> Option<UsageKind>
    ensures { result ≡ fault_in_first command }
{
    match command {
        CommandName::New
        | CommandName::Count
        | CommandName::Search
        | CommandName::Show
        | CommandName::Dump
        | CommandName::Tag
        | CommandName::Restore => None,
        CommandName::Drill | CommandName::Session => Some(UsageKind::Lane),
    }
}

/// Lanes other than 0 read, and each reply is of one index.
fn fault_in_others(command: CommandName) -> Option<UsageKind>
    ensures { result ≡ fault_in_others command }
{
    match command {
        CommandName::Count | CommandName::Search | CommandName::Dump => None,
        CommandName::New
        | CommandName::Show
        | CommandName::Tag
        | CommandName::Restore
        | CommandName::Drill
        | CommandName::Session => Some(UsageKind::Lane),
    }
}

/// What the words ask for, which begin with this name, or the one at fault.
fn read_request(alloc: Global, name: &str, words: &[Text]) -> Result<ParsedLine, NoMemory>
    ensures { IfOk result (λ asked. asked ≡ parse_answer name.now (request_of words.now)) }
{
    match command(alloc, words) {
        Ok(request) => line_request(alloc, name, request),
        Err(CommandError::Usage { word, kind }) => Ok(ParsedLine::Usage { word, kind }),
        Err(CommandError::NoMemory) => Err(NoMemory),
    }
}

fn line_request(
    alloc: Global,
    name: &str,
    request: nm_command::Request,
) -> Result<ParsedLine, NoMemory>
    ensures { IfOk result (λ asked. asked ≡ line_request name.now request) }
{
    match request {
        nm_command::Request::New => Ok(ParsedLine::Request(Request::New)),
        nm_command::Request::Count(ask) => Ok(ParsedLine::Request(Request::Count(ask))),
        nm_command::Request::Search(ask) => Ok(ParsedLine::Request(Request::Search(ask))),
        nm_command::Request::Dump(ask) => Ok(ParsedLine::Request(Request::Dump(ask))),
        nm_command::Request::Show(ask) => Ok(ParsedLine::Request(Request::Show(ask))),
        nm_command::Request::Tag(ask) => Ok(ParsedLine::Request(Request::Tag(ask))),
        nm_command::Request::Restore(ask) => Ok(ParsedLine::Request(Request::Restore(ask))),
        nm_command::Request::Drill(_) | nm_command::Request::Session => {
            refuse(alloc, UsageKind::Lane, name)
        }
    }
}
