//! What a session needs before its index is opened: places for all of its turns, and for its lanes. `session` asks it.

ghost use Rattle.std.specs.Prelude.{◌≡◌, ◌+◌, ◌≤◌, IfOk, IfSome, [], length};
ghost use Rattle.std.specs.List.{All, AllByRecursion};
ghost use Rattle.logbook.specs.Pages.{Book};
ghost use Rattle.nm_session.specs.Session.{IsPlanned};
ghost use Rattle.nm_phase.specs.Observations.{IsLaneAt};
ghost use Rattle.nm_session.specs.Turns.{places_in};

use nm_base::{Many, NoMemory, Room};
use nm_lanes::{Phase, ScriptLine};
use nm_log::Setting;
use nm_phase::{LANES, ReaderLane};
use nm_publish::Reader;
use nm_trace::ReservedLog;
use std::alloc::Global;

/// The lanes other than 0.
const OTHER_LANES: usize = 15;

/// What is made before the index is opened.
#[derive(Drop)]
pub(crate) struct Plan<'a> {
    /// How many phases there are.
    pub(crate) count: u32,
    /// How many lanes other than 0 the script names.
    pub(crate) named: u32,
    /// Places for them.
    pub(crate) lanes: Room<ReaderLane<'a>>,
    pub(crate) reserved: ReservedLog,
}

pub(crate) fn prepare<'a>(alloc: Global, phases: &[Phase]) -> Result<Plan<'a>, NoMemory>
    ensures { IfOk result (IsPlanned phases.now) }
{
    let mut lanes = Room::new(alloc);
    lanes.reserve(OTHER_LANES)?;
    let reserved = ReservedLog::new(alloc, places_in(phases)?)?;
    Ok(Plan {
        count: count_of(phases)?,
        named: count_named(phases),
        lanes,
        reserved,
    })
}

/// How many phases there are; what no number holds finds no memory.
fn count_of(phases: &[Phase]) -> Result<u32, NoMemory>
    ensures { IfOk result (λ count. count ≡ length phases.now) }
{
    match u32::try_from(phases.len()) {
        Ok(count) => Ok(count),
        Err(_) => Err(NoMemory),
    }
}

/// A place for each line and for the end of each phase.
fn places_in(phases: &[Phase]) -> Result<usize, NoMemory>
    ensures { IfOk result (λ places. places ≡ places_in phases.now) }
{
    let mut places = 0;
    'phases: for phase in phases {
        places = plus_one_more(places, phase.lines.len())?;
    }
    Ok(places)
}

/// One more than the sum.
fn plus_one_more(places: usize, more: usize) -> Result<usize, NoMemory>
    ensures { IfOk result (λ sum. sum ≡ places + more + 1) }
{
    match places.checked_add(more) {
        Some(sum) => one_more(sum),
        None => Err(NoMemory),
    }
}

fn one_more(places: usize) -> Result<usize, NoMemory>
    ensures { IfOk result (λ sum. sum ≡ places + 1) }
{
    match places.checked_add(1) {
        Some(sum) => Ok(sum),
        None => Err(NoMemory),
    }
}

/// How many lanes other than 0 the script names.
fn count_named(phases: &[Phase]) -> u32 {
    let mut count = 0u32;
    'lanes: for lane in 1..LANES {
        if is_named(lane, phases) {
            count = count.saturating_add(1);
        }
    }
    count
}

fn is_named(lane: u32, phases: &[Phase]) -> bool {
    'phases: for phase in phases {
        if is_in(lane, phase.lines.as_slice()) {
            return true;
        }
    }
    false
}

fn is_in(lane: u32, lines: &[ScriptLine]) -> bool {
    'lines: for line in lines {
        if line.lane == lane {
            return true;
        }
    }
    false
}

/// The lanes other than 0 that the script names, with a reader each.
pub(crate) fn lanes_with<'a>(
    alloc: Global,
    setting: &'a Setting,
    phases: &'a [Phase],
    readers: Many<Reader>,
    places: Room<ReaderLane<'a>>,
) -> Vec<ReaderLane<'a>>
    requires spare { 15 ≤ places.1 }
    requires none { places.0 ≡ [] }
    ensures { (book : Book) → AllByRecursion (λ reader. reader.book ≡ book) readers → All (IsLaneAt setting.now.moment phases.now 0 book) result.items }
{
    let mut readers = readers;
    let mut lanes = places;
    'lanes: for lane in 1..LANES {
        if !is_named(lane, phases) {
            continue;
        }
        add_lane(alloc, setting, phases, lane, readers.pop(), &mut lanes);
    }
    lanes.into_many().into_vec()
}

/// Adds a lane, where a reader is left.
fn add_lane<'a>(
    alloc: Global,
    setting: &'a Setting,
    phases: &'a [Phase],
    lane: u32,
    reader: Option<Reader>,
    lanes: &mut Room<ReaderLane<'a>>,
)
    requires range { (1 ≤ lane) × (lane ≤ 15) }
    requires spare { 1 ≤ lanes.old.1 }
    ensures spare { lanes.old.1 ≤ lanes.new.1 + 1 }
    ensures lanes { (book : Book) → IfSome reader (λ r. r.book ≡ book) → AllByRecursion (IsLaneAt setting.now.moment phases.now 0 book) lanes.old.0
        → AllByRecursion (IsLaneAt setting.now.moment phases.now 0 book) lanes.new.0 }
{
    if let Some(reader) = reader {
        lanes.push_spare(ReaderLane {
            lane,
            alloc,
            setting,
            phases,
            at: 0,
            reader,
            observations: Many::new(alloc),
        });
    }
}
