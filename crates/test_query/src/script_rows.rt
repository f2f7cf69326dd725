//! Rows on scripts, for `answers`: their phases and lines, or how they are refused.

use crate::values::usage_name;
use nm_base::Limit;
use nm_lanes::{Phase, ScriptError, ScriptLine, read_script};
use rows::{Lines, Row, RowError};
use std::alloc::Global;

/// All lines `|` are the lines of one script.
pub fn push_script(alloc: Global, lines: &mut Lines, row: &Row<'_>) -> Result<(), RowError> {
    let text = row.text(alloc, b"|")?;
    match read_script(alloc, text.as_slice()) {
        Ok(script) => push_phases(lines, script.phases.as_slice()),
        Err(ScriptError::Limit(Limit::Lines)) => lines.line(b"LIMIT LINES"),
        Err(ScriptError::Limit(_)) => lines.line(b"ANOTHER LIMIT"),
        Err(ScriptError::NoMemory) => return Err(RowError::NoMemory),
    }
    Ok(())
}

fn push_phases(lines: &mut Lines, phases: &[Phase]) {
    'phases: for (at, phase) in phases.iter().enumerate() {
        push_phase(lines, at as u64, phase.lines.as_slice());
    }
}

/// Its lines, or `PHASE nothing`; phases are counted from 1.
fn push_phase(lines: &mut Lines, at: u64, phase: &[ScriptLine]) {
    let number = at.saturating_add(1);
    if phase.is_empty() {
        begin_phase(lines, number);
        lines.push(b" nothing");
    }
    'lines: for line in phase {
        begin_phase(lines, number);
        push_line(lines, line);
    }
}

fn begin_phase(lines: &mut Lines, number: u64) {
    lines.begin();
    lines.push_number(number);
}

/// ` @LANE NUMBER WORDS << INPUT`, with `KIND` before the words of a line with a flaw.
fn push_line(lines: &mut Lines, line: &ScriptLine) {
    lines.push(b" @");
    lines.push_number(u64::from(line.lane));
    lines.push(b" ");
    lines.push_number(u64::from(line.number));
    if let Some(kind) = line.flaw {
        lines.push_after_blank(usage_name(kind).as_bytes());
    }
    'words: for word in line.words.as_slice() {
        lines.push_after_blank(word.as_bytes());
    }
    if !line.input.is_empty() {
        lines.push(b" << ");
        lines.push(line.input.as_slice());
    }
}
