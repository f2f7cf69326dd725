//! Laws of the turns of a phase, which `nm_session` calls. No code runs.

ghost use Rattle.std.specs.Prelude.{◌≡◌, ◌+◌, ◌≤◌, ℕ, ℤ, List, Bool, length};
ghost use Rattle.nm_history.specs.LineResult.{Place};
ghost use Rattle.nm_history.specs.MachineRun.{replied_where};
ghost use Rattle.nm_lanes.specs.declared.script.ScriptLine.{ScriptLine};
ghost use Rattle.nm_line.specs.Line.{IsEven, IsLineAnswer};
ghost use Rattle.nm_log.specs.declared.line_parser.ParsedLine.{ParsedLine};
ghost use Rattle.nm_log.specs.declared.outcome.Outcome.{Outcome};
ghost use Rattle.nm_maildir.specs.declared.given.Given.{Given};
ghost use Rattle.nm_phase.specs.Taken.{AreTaken};
ghost use Rattle.nm_phase.specs.Turns.{Planned};
ghost use Rattle.nm_trace.specs.ReservedLog.{HasSpare};
ghost use Rattle.nm_trace.specs.declared.reserved_log.ReservedLog.{ReservedLog};

/// Turns take no more places of the reserved log than one each.
pub fn turns_leave_the_other_places()
    ensures { (moment : ℤ) (left : ℕ) (turns : List Planned) (old new : Place) (before after : ReservedLog)
        → HasSpare (left + length turns) (length old.writer.begun) before → AreTaken moment turns old before after new → HasSpare left (length new.writer.begun) after }
{}

/// Where a writer is open after a line, it has acknowledged all that it began.
pub fn a_line_keeps_the_writer_even()
    ensures { (moment : ℤ) (old new : Place) (line : ScriptLine) (noted : List Given) (outcome : Outcome) (failed : Bool)
        → IsLineAnswer moment old line noted outcome failed new → IsEven old.writer → IsEven new.writer }
{}

/// A line replies at most once.
pub fn a_line_replies_once()
    ensures { (outcome : Outcome) (line : ParsedLine) (lane revision : ℕ) (text : List ℕ) → length (replied_where outcome line lane revision text) ≤ 1 }
{}
