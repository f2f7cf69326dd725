//! A line of a lane other than 0: it is answered on an index, and asks no device. `nm_phase` asks for it.

ghost use Rattle.std.specs.Prelude.{◌≡◌, ◌≤◌, true};
ghost use Rattle.nm_dates.specs.Seconds.{IsMoment};
ghost use Rattle.nm_line.specs.LaneRead.{IsAnswerOn};
ghost use Rattle.nm_prepare.specs.Prepared.{request_of};
ghost use Rattle.nm_log.specs.ParsedLine.{is_of_every_lane};

use crate::index_replies::read_off;
use crate::line_answer::{LineAnswer, refuse};
use nm_base::NoMemory;
use nm_lanes::ScriptLine;
use nm_log::{Setting, other_lanes_search_count_and_dump};
use nm_prepare::{AskError, Prepared, Reading, prepare_line};
use nm_state::Snapshot;
use std::alloc::Global;

/// Reads what the line asks for, and answers it on the index.
pub fn lane_read(
    alloc: Global,
    setting: &Setting,
    line: &ScriptLine,
    snapshot: &Snapshot,
) -> Result<LineAnswer, NoMemory>
    requires moment { IsMoment setting.now.moment }
    requires another { 1 ≤ line.now.lane }
    ensures { IsAnswerOn setting.now.moment snapshot.now line.now result }
{
    other_lanes_search_count_and_dump();
    match prepare_line(alloc, line) {
        Ok(prepared) => read_off(alloc, setting, snapshot, reading_in(prepared)),
        Err(AskError::Refused(outcome)) => refuse(alloc, outcome),
        Err(AskError::NoMemory) => Err(NoMemory),
    }
}

/// What every lane may ask for.
fn reading_in(prepared: Prepared) -> Reading
    requires { is_of_every_lane (request_of prepared) ≡ true }
    ensures { prepared ≡ Prepared.Read result }
{
    match prepared {
        Prepared::Read(reading) => reading,
        Prepared::New | Prepared::Show(_, _) | Prepared::Tag(_, _) | Prepared::Restore(_, _) =>
            unreachable!(),
    }
}
