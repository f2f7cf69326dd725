//! A lane other than 0 and what it saw of a phase, for `reads`, `barrier` and `plan` of `nm_session`.

ghost use Rattle.std.specs.Prelude.{◌≤◌};

use nm_base::{Many, NoMemory};
use nm_lanes::Phase;
use nm_line::LineAnswer;
use nm_log::Setting;
use nm_publish::Reader;
use std::alloc::Global;

/// Lanes 0 to 15.
pub const LANES: u32 = 16;

/// What a lane was answered to a line.
#[derive(Drop)]
pub struct Observation {
    /// The place of the line in its phase.
    pub at: usize,
    /// The revision of the index that it saw.
    pub revision: u64,
    pub answered: Result<LineAnswer, NoMemory>,
}

/// A lane other than 0, with its reader, the phase that it runs next, and what it saw of the one before.
#[derive(Drop)]
pub struct ReaderLane<'a> {
    pub lane: u32,
    pub alloc: Global,
    pub setting: &'a Setting,
    pub phases: &'a [Phase],
    pub at: usize,
    pub reader: Reader,
    pub observations: Many<Observation>,
    ghost in_range: { (1 ≤ lane) × (lane ≤ 15) },
}
