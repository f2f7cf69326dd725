//! What the lanes other than 0 read in a phase, each in a thread of its own. `stage` starts them, and `barrier` notes what they saw.

ghost use Rattle.std.specs.Prelude.{◌≡◌, ◌≤◌};
ghost use Rattle.nm_dates.specs.Seconds.{IsMoment};
ghost use Rattle.nm_publish.specs.Published.{GoesOn};
ghost use Rattle.nm_phase.specs.Observations.{AreObservations, HasSeen, IsSeen};

use crate::reader_lane::{Observation, ReaderLane};
use nm_base::{Many, NoMemory};
use nm_lanes::{LaneWork, ScriptLine};
use nm_line::lane_read;
use nm_log::Setting;
use nm_publish::Reader;
use std::alloc::Global;
use std::sync::Wait;
use std::thread::Threads;

impl<'a> LaneWork for ReaderLane<'a> {
    ghost ready = { λ lane. IsMoment lane.setting.now.moment };

    ghost does = { λ before after. HasSeen before after };

    fn seat(&self) -> u32 {
        self.lane
    }

    fn work<R: Threads + Wait + Sync>(&mut self, _rt: &R) {
        if let Some(phase) = self.phases.get(self.at) {
            self.observations = see_lines(
                self.alloc,
                self.setting,
                self.lane,
                phase.lines.as_slice(),
                &mut self.reader,
            );
            self.at += 1;
        }
    }
}

/// Answers the lane's lines among these, each on what is shown by then.
fn see_lines(
    alloc: Global,
    setting: &Setting,
    lane: u32,
    lines: &[ScriptLine],
    reader: &mut Reader,
) -> Many<Observation>
    requires moment { IsMoment setting.now.moment }
    requires another { 1 ≤ lane }
    ensures grown { GoesOn reader.old reader.new }
    ensures observations { AreObservations setting.now.moment lines.now reader.new result }
{
    let mut observations = Many::new(alloc);
    'lines: for (at, line) in lines.iter().enumerate() {
        if line.lane != lane {
            continue;
        }
        let observation = see_line(alloc, setting, at, line, reader);
        // An observation that finds no place is missing, and the line is answered when the phase ends.
        let _ = observations.push(observation);
    }
    observations
}

fn see_line(
    alloc: Global,
    setting: &Setting,
    at: usize,
    line: &ScriptLine,
    reader: &mut Reader,
) -> Observation
    requires moment { IsMoment setting.now.moment }
    requires another { 1 ≤ line.now.lane }
    ensures grown { GoesOn reader.old reader.new }
    ensures at { result.at ≡ at }
    ensures seen { IsSeen setting.now.moment line.now reader.new result }
{
    match reader.see() {
        Ok(snapshot) => Observation {
            at,
            revision: snapshot.revision(),
            answered: lane_read(alloc, setting, line, &snapshot),
        },
        Err(NoMemory) => Observation {
            at,
            revision: reader.revision(),
            answered: Err(NoMemory),
        },
    }
}
