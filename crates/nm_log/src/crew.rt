//! Who runs the lines of a call: `nm_top` makes it once, and all that runs below takes it.

ghost use Rattle.std.specs.Prelude.{◌≡◌, ◌<◌, ◌≤◌};
ghost use Rattle.nm_dates.specs.Seconds.{IsMoment};

use crate::Setting;
use std::alloc::Global;

/// The runtime with its threads, the allocator, and the setting of the call, which is within its bounds.
#[derive(Drop)]
pub struct Crew<'r, R> {
    pub rt: &'r R,
    pub alloc: Global,
    pub setting: &'r Setting,
    ghost moment: { IsMoment setting.now.moment },
    ghost workers: { (0 < setting.now.workers) × (setting.now.workers ≤ 16) },
}

impl<'r, R> Crew<'r, R> {
    pub fn new(rt: &'r R, alloc: Global, setting: &'r Setting) -> Crew<'r, R>
        requires moment { IsMoment setting.now.moment }
        requires workers { (0 < setting.now.workers) × (setting.now.workers ≤ 16) }
        ensures { result.setting.now ≡ setting.now }
    {
        Crew { rt, alloc, setting }
    }
}
