//! A reader of scripts, for `read_script`: it is given one line after the other.

ghost use Rattle.std.specs.Prelude.{◌≡◌, ◌++◌, true, None, IfOk, OnOk};
ghost use Rattle.nm_lanes.specs.Lines.{input_line, is_input, is_separator};
ghost use Rattle.nm_lanes.specs.ReaderState.{after_command, after_input, after_line, after_separator, closed, fed_with, new_reader};

use crate::line::{command_line, is_input, is_separator, stray_line};
use crate::{Phase, Script, ScriptLine};
use nm_base::{Many, NoMemory};
use std::alloc::Global;
use std::mem;

/// A script as far as its lines were read.
#[derive(Drop)]
pub(crate) struct Reader {
    /// Those that have ended.
    phases: Many<Phase>,
    /// Of the phase that has not ended, without the last command.
    lines: Many<ScriptLine>,
    /// The last command of that phase, which may get more input.
    command: Option<ScriptLine>,
}

impl Reader {
    pub(crate) fn new(alloc: Global) -> Reader
        ensures { result ≡ new_reader }
    {
        Reader {
            phases: Many::new(alloc),
            lines: Many::new(alloc),
            command: None,
        }
    }

    /// Reads one more line, without its end.
    pub(crate) fn add_line(
        &mut self,
        alloc: Global,
        number: u32,
        line: &[u8],
    ) -> Result<(), NoMemory>
        ensures { OnOk result (self.new ≡ after_line self.old number line.now) }
    {
        if line.is_empty() {
            return Ok(());
        }
        if is_separator(line) {
            return self.end_phase(alloc);
        }
        if is_input(line) {
            return self.add_input(alloc, number, line);
        }
        self.begin_command(command_line(alloc, number, line)?)
    }

    /// The script, of which all lines were read.
    pub(crate) fn finish(mut self, alloc: Global) -> Result<Script, NoMemory>
        ensures { IfOk result (λ script. script.phases ≡ (after_separator self).phases) }
    {
        self.end_phase(alloc)?;
        Ok(Script {
            phases: self.phases,
        })
    }

    fn end_phase(&mut self, alloc: Global) -> Result<(), NoMemory>
        ensures { OnOk result (self.new ≡ after_separator self.old) }
    {
        self.close_command()?;
        let lines = mem::replace(&mut self.lines, Many::new(alloc));
        self.phases.push(Phase { lines })
    }

    fn begin_command(&mut self, command: ScriptLine) -> Result<(), NoMemory>
        ensures { OnOk result (self.new ≡ after_command self.old command) }
    {
        match mem::replace(&mut self.command, Some(command)) {
            Some(last) => self.lines.push(last),
            None => Ok(()),
        }
    }

    /// The last command gets no more input.
    fn close_command(&mut self) -> Result<(), NoMemory>
        ensures { OnOk result (self.new ≡ record { phases = self.old.phases; lines = self.old.lines ++ closed self.old.command; command = None }) }
    {
        match self.command.take() {
            Some(command) => self.lines.push(command),
            None => Ok(()),
        }
    }

    fn add_input(&mut self, alloc: Global, number: u32, line: &[u8]) -> Result<(), NoMemory>
        requires { is_input line.now ≡ true }
        ensures { OnOk result (self.new ≡ after_input self.old number line.now) }
    {
        match self.command.take() {
            Some(command) => self.command = Some(fed_with(command, line)?),
            None => self.lines.push(stray_line(alloc, number)?)?,
        }
        Ok(())
    }
}

/// The command with what an input line adds.
fn fed_with(command: ScriptLine, line: &[u8]) -> Result<ScriptLine, NoMemory>
    requires { is_input line.now ≡ true }
    ensures { IfOk result (λ fed. fed ≡ fed_with command (input_line line.now)) }
{
    let mut fed = command;
    fed.input.extend_from_slice(line.get(1..).unwrap_or(&[]))?;
    fed.input.push(b'\n')?;
    Ok(fed)
}
