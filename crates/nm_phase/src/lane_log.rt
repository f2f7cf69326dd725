//! A line of a lane other than 0 in the log, where its phase ends. `barrier` notes each.

ghost use Rattle.std.specs.Prelude.{◌≡◌, ◌≤◌, ℤ, codes, length};
ghost use Rattle.nm_model_index.specs.declared.base.Base.{Base};
ghost use Rattle.nm_line.specs.LaneRead.{IsAnswerOn};
ghost use Rattle.nm_phase.specs.LaneLog.{IsAnswerNoted, IsLaneAnswered};
ghost use Rattle.nm_trace.specs.ReservedLog.{AreFallbacks};

use nm_base::{Many, NoMemory};
use nm_lanes::ScriptLine;
use nm_line::{LineAnswer, answered_or, what_a_lane_reads_is_said};
use nm_log::{LineLog, Said, Setting, line_status};
use nm_trace::{ReservedLog, take_fallback};
use nm_writer::Writer;
use std::alloc::Global;

/// The end of a phase, of this number: what a lane did not see of it is answered on the index of the writer.
#[derive(Drop)]
pub(crate) struct PhaseEnd<'a> {
    pub(crate) alloc: Global,
    pub(crate) setting: &'a Setting,
    pub(crate) phase: u32,
    pub(crate) writer: &'a Writer,
}

impl PhaseEnd<'_> {
    /// Notes what a line was answered on an index of this revision, its read at this place of the marks.
    pub(crate) fn note_answer(
        &self,
        line: &ScriptLine,
        revision: u64,
        answered: Result<LineAnswer, NoMemory>,
        reserved: &mut ReservedLog,
        at: usize,
    )
        requires logs { 1 ≤ reserved.old.logs.1 }
        requires marks { 2 ≤ reserved.old.marks.1 }
        requires fallbacks { 1 ≤ length reserved.old.fallbacks }
        requires texts { AreFallbacks reserved.old.fallbacks }
        requires at { at ≤ length reserved.old.marks.0 }
        ensures { (moment : ℤ) (index : Base) → revision ≡ index.revision → IsAnswerOn moment index line.now answered
            → IsAnswerNoted moment self.now.phase index line.now at reserved.old reserved.new }
    {
        let fallback = take_fallback(&mut reserved.fallbacks);
        let (log, reply) = self.lane_read_log(line, revision, answered, fallback);
        reserved.note_lane_read(log, reply, at);
    }

    /// The log of a line that was answered so. `fallback` is its text where it ran out of memory.
    fn lane_read_log(
        &self,
        line: &ScriptLine,
        revision: u64,
        answered: Result<LineAnswer, NoMemory>,
        fallback: Many<u8>,
    ) -> (LineLog, Option<Said>)
        requires fallback { fallback ≡ codes "notmuch: no memory\n" }
        ensures { (moment : ℤ) (index : Base) → revision ≡ index.revision → IsAnswerOn moment index line.now answered
            → IsLaneAnswered moment self.now.phase index (line.now, result.0) result.1 }
    {
        what_a_lane_reads_is_said();
        let LineAnswer {
            outcome,
            text,
            reply,
        } = answered_or(answered, fallback);
        let log = LineLog {
            phase: self.phase,
            lane: line.lane,
            line: line.number,
            revision,
            status: line_status(&outcome),
            outcome,
            text,
            given: Many::new(self.alloc),
            mail_faults: 0,
            disk_faults: 0,
            disk_failed: false,
        };
        (log, reply)
    }
}
