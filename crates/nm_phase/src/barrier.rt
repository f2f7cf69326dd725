//! What the lanes other than 0 saw of a phase goes into the log at its end, once all of them are back, lane by lane. `stage` calls it.

ghost use Rattle.std.specs.Prelude.{◌≡◌, ◌+◌, ◌≤◌, ℕ, ℤ, List, [], IfSome, length, map};
ghost use Rattle.std.specs.List.{All, AllZip, flat_map};
ghost use Rattle.nm_base.specs.Limits.{max_commits};
ghost use Rattle.nm_history.specs.Call.{lines_of_lane};
ghost use Rattle.nm_history.specs.LineResult.{Place};
ghost use Rattle.nm_lanes.specs.declared.script.ScriptLine.{ScriptLine};
ghost use Rattle.nm_publish.specs.Published.{GoesOn, index_of};
ghost use Rattle.nm_phase.specs.LaneLog.{IsLaneReadNoted, IsPhaseEnd};
ghost use Rattle.nm_phase.specs.Taken.{AreTaken};
ghost use Rattle.nm_trace.specs.ReservedLog.{HasSpare};
ghost use Rattle.nm_phase.specs.Observations.{AreKnown, HasAnswered, IsSeenAt, KeepsLane, MayBeOf};
ghost use Rattle.nm_phase.specs.Turns.{other_lanes, planned_line};

use crate::lane_log::PhaseEnd;
use crate::reader_lane::{LANES, Observation, ReaderLane};
use core::mem;
use nm_base::Many;
use nm_lanes::ScriptLine;
use nm_line::lane_read;
use nm_log::Crew;
use nm_model_index::the_revision_counts_the_commits;
use nm_publish::Shown;
use nm_trace::{Mark, ReservedLog, place_of};
use nm_writer::Writer;
use std::alloc::Global;

/// Notes the lines of all other lanes, where these saw what they saw, or else what the writer shows. Readers learn what is shown.
pub(crate) fn settle<R>(
    crew: &Crew<'_, R>,
    phase: u32,
    lines: &[ScriptLine],
    lanes: &mut [ReaderLane<'_>],
    reserved: &mut ReservedLog,
    writer: &mut Writer,
)
    requires lane_answer { All (HasAnswered crew.now.setting.now.moment lines.now writer.old.published.book) lanes.old }
    requires spare { HasSpare (length (flat_map (lines_of_lane lines.now) other_lanes)) (length writer.old.begun) reserved.old }
    requires few { length writer.old.begun ≤ max_commits }
    ensures writer { writer.new ≡ writer.old }
    ensures lanes { AllZip KeepsLane lanes.old lanes.new }
    ensures taken { (place : Place) → place.writer ≡ writer.old
        → AreTaken crew.now.setting.now.moment (map (planned_line phase) (flat_map (lines_of_lane lines.now) other_lanes)) place reserved.old reserved.new place }
{
    'lanes: for lane in 1..LANES {
        let observations = observations_of(crew.alloc, lane, lanes, writer);
        let end = PhaseEnd {
            alloc: crew.alloc,
            setting: crew.setting,
            phase,
            writer,
        };
        settle_lane(&end, lane, lines, observations, reserved);
    }
}

/// What this lane saw, if it is there; its reader learns what is shown.
fn observations_of(
    alloc: Global,
    lane: u32,
    lanes: &mut [ReaderLane<'_>],
    writer: &mut Writer,
) -> Many<Observation>
    requires books { All (λ each. each.reader.book ≡ writer.old.published.book) lanes.old }
    ensures writer { writer.new ≡ writer.old }
    ensures shown { index_of writer.old.published ≡ writer.old.shown }
    ensures lanes { AllZip KeepsLane lanes.old lanes.new }
    ensures lane_answer { (moment : ℤ) (lines : List ScriptLine) → All (HasAnswered moment lines writer.old.published.book) lanes.old
        → All (HasAnswered moment lines writer.old.published.book) lanes.new × AreKnown moment lines writer.old.published result }
{
    let shown = writer.tell();
    'lanes: for at in 0..lanes.len() {
        if lanes[at].lane == lane {
            return hand_over(alloc, &mut lanes[at], shown);
        }
    }
    Many::new(alloc)
}

fn hand_over(alloc: Global, lane: &mut ReaderLane<'_>, shown: Shown) -> Many<Observation>
    requires book { shown.book ≡ lane.old.reader.book }
    ensures kept { KeepsLane lane.old lane.new }
    ensures lane_answer { (moment : ℤ) (lines : List ScriptLine) → HasAnswered moment lines shown.book lane.old
        → HasAnswered moment lines shown.book lane.new × AreKnown moment lines shown result }
{
    lane.reader.learn(shown);
    mem::replace(&mut lane.observations, Many::new(alloc))
}

/// Notes the lines of one lane, of which it saw these in their order.
fn settle_lane(
    end: &PhaseEnd<'_>,
    lane: u32,
    lines: &[ScriptLine],
    observations: Many<Observation>,
    reserved: &mut ReservedLog,
)
    requires end { IsPhaseEnd end.now }
    requires another { 1 ≤ lane }
    requires observations { AreKnown end.now.setting.now.moment lines.now end.now.writer.now.published observations }
    requires spare { HasSpare (length (lines_of_lane lines.now lane)) (length end.now.writer.now.begun) reserved.old }
    ensures taken { (place : Place) → place.writer ≡ end.now.writer.now
        → AreTaken end.now.setting.now.moment (map (planned_line end.now.phase) (lines_of_lane lines.now lane)) place reserved.old reserved.new place }
{
    let mut rest = observations.into_vec().into_iter();
    'lines: for (at, line) in lines.iter().enumerate() {
        if line.lane != lane {
            continue;
        }
        settle_line(end, at, line, rest.next(), reserved);
    }
}

/// Notes one line, of which the lane saw this.
fn settle_line(
    end: &PhaseEnd<'_>,
    at: usize,
    line: &ScriptLine,
    observation: Option<Observation>,
    reserved: &mut ReservedLog,
)
    requires end { IsPhaseEnd end.now }
    requires another { 1 ≤ line.now.lane }
    requires spare { HasSpare 1 (length end.now.writer.now.begun) reserved.old }
    requires observation { IfSome observation (λ observation. MayBeOf end.now.setting.now.moment at line.now end.now.writer.now.published observation) }
    ensures { IsLaneReadNoted end.now.setting.now.moment end.now.phase end.now.writer.now line.now reserved.old reserved.new }
{
    the_revision_counts_the_commits();
    let Some(observation) = observation else {
        return answer_anew(end, line, reserved);
    };
    let now = end.writer.snapshot().revision();
    match seen_at(at, &observation, line.lane, reserved.marks.as_slice(), now) {
        Some(place) => end.note_answer(
            line,
            observation.revision,
            observation.answered,
            reserved,
            place,
        ),
        None => answer_anew(end, line, reserved),
    }
}

/// Answers the line on what the writer shows, after all that was noted.
fn answer_anew(end: &PhaseEnd<'_>, line: &ScriptLine, reserved: &mut ReservedLog)
    requires end { IsPhaseEnd end.now }
    requires another { 1 ≤ line.now.lane }
    requires spare { HasSpare 1 (length end.now.writer.now.begun) reserved.old }
    ensures { IsLaneReadNoted end.now.setting.now.moment end.now.phase end.now.writer.now line.now reserved.old reserved.new }
{
    let snapshot = end.writer.snapshot();
    let answered = lane_read(end.alloc, end.setting, line, snapshot);
    let last = reserved.marks.as_slice().len();
    end.note_answer(line, snapshot.revision(), answered, reserved, last);
}

/// Where in the marks the lane saw this, where it is of the line at this place and no more than was shown at this revision.
fn seen_at(
    at: usize,
    observation: &Observation,
    lane: u32,
    marks: &[Mark],
    now: u64,
) -> Option<usize>
    ensures { IfSome result (λ place. IsSeenAt at lane marks.now now observation.now place) }
{
    if observation.at != at {
        return None;
    }
    let behind = now.checked_sub(observation.revision)?;
    place_of(marks, lane, behind)
}
