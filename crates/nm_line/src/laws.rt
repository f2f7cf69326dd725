//! A law of what a line of another lane is answered, which `nm_phase` calls. No code runs.

ghost use Rattle.std.specs.Prelude.{ℤ, ℕ, List};
ghost use Rattle.nm_model_index.specs.declared.base.Base.{Base};
ghost use Rattle.nm_line.specs.LaneRead.{IsSaidOn, lane_answer};
ghost use Rattle.nm_log.specs.declared.line_parser.ParsedLine.{ParsedLine};

/// What is answered says how the line ended, and was replied where that went well.
pub fn what_a_lane_reads_is_said()
    ensures { (moment : ℤ) (index : Base) (line : ParsedLine) (input : List ℕ) → IsSaidOn moment index line input (lane_answer moment index line input) }
{}
