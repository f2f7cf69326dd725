//! The phases and lines of a script, as `test_query` reads one.

ghost use Rattle.nm_base.specs.Limits.{max_lines};
ghost use Rattle.std.specs.Prelude.{◌≡◌, ◌<◌, ◌≤◌, [], ◌∷◌, length, IfErr, IfOk, MatchOption};
ghost use Rattle.std.specs.Str.Lines.{lines};
ghost use Rattle.nm_lanes.specs.Script.{IsScriptFault, script_of};

use crate::reader::Reader;
use nm_base::{Limit, Many, NoMemory, Text, UsageKind};
use nm_text::{content, next_line};
use std::alloc::Global;
use thiserror::Error;

/// The most lines of a script.
const MAX_LINES: u32 = 4096;

/// What a session runs, phase after phase.
#[derive(Drop)]
pub struct Script {
    pub phases: Many<Phase>,
}

/// Lines that may run at once, those of one lane in their order.
#[derive(Drop)]
pub struct Phase {
    pub lines: Many<ScriptLine>,
}

/// A command, or a line that is none.
#[derive(Drop)]
pub struct ScriptLine {
    /// Counted from 1 over all lines of the script.
    pub number: u32,
    /// 0 to 15.
    pub lane: u32,
    /// The words of the command, without the lane; with a flaw the word at fault alone.
    pub words: Many<Text>,
    /// What the `|` lines after it say.
    pub input: Many<u8>,
    /// What is wrong with it, whatever the command.
    pub flaw: Option<UsageKind>,
}

/// Why a script was not read.
#[derive(Clone, Copy, Debug, Error)]
pub enum ScriptError {
    #[error("the script passes a limit")]
    Limit(Limit),
    #[error("no memory")]
    NoMemory,
}

impl From<NoMemory> for ScriptError {
    ghost use Rattle.nm_lanes.specs.declared.script.ScriptError.TheVariants as faults;

    ghost from_gives = { λ _ e. e ≡ faults.NoMemory };

    fn from(_: NoMemory) -> ScriptError {
        ScriptError::NoMemory
    }
}

/// Reads a script, whose lines are ended by LF or CR LF.
pub fn read_script(alloc: Global, bytes: &[u8]) -> Result<Script, ScriptError>
    ensures ok { IfOk result (λ script. script ≡ script_of bytes.now) }
    ensures few { IfOk result (λ script. length (lines bytes.now) ≤ max_lines) }
    ensures err { IfErr result (IsScriptFault bytes.now) }
{
    let mut reader = Reader::new(alloc);
    let mut number = 0;
    let mut rest = bytes;
    'lines: while let Some((line, after)) = next_content(rest) {
        if number == MAX_LINES {
            return Err(ScriptError::Limit(Limit::Lines));
        }
        number += 1;
        rest = after;
        reader.add_line(alloc, number, line)?;
    }
    Ok(reader.finish(alloc)?)
}

/// The first line without its end, and the text after it.
fn next_content(bytes: &[u8]) -> Option<(&[u8], &[u8])>
    ensures { MatchOption result (lines bytes.now ≡ []) (λ cut. (lines bytes.now ≡ cut.0.now ∷ lines cut.1.now) × (length cut.1.now < length bytes.now)) }
{
    match next_line(bytes) {
        Some((line, rest)) => Some((content(line), rest)),
        None => None,
    }
}
