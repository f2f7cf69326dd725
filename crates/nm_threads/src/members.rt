//! The ids of a thread, by its name. `Labels` and the removal of threads ask for them.

ghost use Rattle.std.specs.Prelude.{◌≡◌, ◌≢◌, ◌+◌, Some, MatchOption, IfOk, OnOk, Contains, length, map};
ghost use Rattle.std.specs.List.{filter_map};
ghost use Rattle.nm_threads.specs.Labels.{Label, named};
ghost use Rattle.nm_threads.specs.Maps.{AreMaps, at, labelling_of};
ghost use Rattle.nm_threads.specs.declared.maps.Thread.{Thread};

use crate::maps::Maps;
use crate::thread_merge::numbers_of;
use nm_base::{Copies, Many, MessageId, NoMemory, Steps};
use nm_shared::SharedMap;
use std::alloc::Global;
use std::sync::ledger::Ledger;

/// The group of the thread of this name, if there is one.
pub fn group_named(maps: &Maps, name: u64) -> Option<u64>
    requires { AreMaps maps.now }
    ensures { MatchOption result ((label : Label) → Contains (labelling_of maps.now).labels label → label.name ≢ name) (λ group. (thread : Thread) × (at group maps.now.threads ≡ Some thread) × (thread.name ≡ name)) }
{
    let group = *maps.groups.get_numbered(&name)?;
    let thread = maps.threads.get(&group)?;
    if thread.name == name {
        Some(group)
    } else {
        None
    }
}

/// The ids that have these numbers.
fn ids_at<L: Ledger>(
    alloc: Global,
    ids: &SharedMap<u64, MessageId>,
    numbers: &[u64],
    steps: &mut Steps<L>,
) -> Result<Many<MessageId>, NoMemory>
    ensures ids { IfOk result (λ found. found ≡ filter_map (λ number. at number ids.now) numbers.now) }
    ensures steps { OnOk result (steps.new ≡ steps.old + length numbers.now) }
{
    let mut found = Many::new(alloc);
    'numbers: for number in numbers {
        steps.tick();
        if let Some(id) = ids.get_numbered(number) {
            found.push(id.copy()?)?;
        }
    }
    Ok(found)
}

/// The ids of the thread of this name, by their numbers.
pub fn members_named<L: Ledger>(
    alloc: Global,
    maps: &Maps,
    name: u64,
    steps: &mut Steps<L>,
) -> Result<Many<MessageId>, NoMemory>
    requires { AreMaps maps.now }
    ensures ids { IfOk result (λ ids. ids ≡ map (λ label. label.id) (named name (labelling_of maps.now).labels)) }
    ensures steps { OnOk result (steps.new ≡ steps.old + length (named name (labelling_of maps.now).labels)) }
{
    let Some(group) = group_named(maps, name) else {
        return Ok(Many::new(alloc));
    };
    let numbers = numbers_of(alloc, &maps.members, group)?;
    let ids = ids_at(alloc, &maps.ids, numbers.as_slice(), steps)?;
    Ok(ids)
}
