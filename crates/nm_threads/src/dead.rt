//! Threads without a live id go. `Labels` calls it.

ghost use Rattle.std.specs.Prelude.{◌≡◌, ℕ, IfOk, OnOk, map, not};
ghost use Rattle.std.specs.List.{filter, list_any};
ghost use Rattle.std.specs.Option.{is_some};
ghost use Rattle.nm_threads.specs.Labels.{held_labels, is_named};
ghost use Rattle.nm_threads.specs.Maps.{AreMaps, at, labelling_of};

use crate::maps::{Maps, Member, Thread};
use crate::removal::remove_named;
use crate::thread_merge::place_of;
use nm_base::{Many, MessageId, NoMemory};
use nm_shared::SharedMap;
use std::alloc::Global;

/// The names of the threads of ids, of those that have a number.
fn names_of(
    alloc: Global,
    maps: &Maps,
    ids: &[MessageId],
) -> Result<SharedMap<u64, Member>, NoMemory>
    requires { AreMaps maps.now }
    ensures { IfOk result (λ names. (name : ℕ) → is_some (at name names) ≡ list_any (is_named (labelling_of maps.now).labels name) ids.now) }
{
    let mut names = SharedMap::new(alloc);
    'ids: for id in ids {
        if let Some(place) = place_of(maps, id) {
            names.insert(place.thread.name, Member)?;
        }
    }
    Ok(names)
}

/// The names of the threads, without these.
fn other_names(
    alloc: Global,
    threads: &SharedMap<u64, Thread>,
    names: &SharedMap<u64, Member>,
) -> Result<Many<u64>, NoMemory>
    ensures { IfOk result (λ others. others ≡ filter (λ name. not (is_some (at name names.now))) (map (λ entry. entry.1.name) threads.now)) }
{
    let mut others = Many::new(alloc);
    let mut rest = threads.iter();
    'threads: while let Some(entry) = rest.next() {
        let name = entry.1.name;
        if names.get(&name).is_none() {
            others.push(name)?;
        }
    }
    Ok(others)
}

/// Lets go the threads that have none of these ids.
pub fn remove_dead(alloc: Global, maps: &mut Maps, live: &[MessageId]) -> Result<(), NoMemory>
    requires { AreMaps maps.old }
    ensures maps { OnOk result (AreMaps maps.new) }
    ensures next { OnOk result (maps.new.next ≡ maps.old.next) }
    ensures labels { OnOk result ((labelling_of maps.new).labels ≡ held_labels live.now (labelling_of maps.old).labels) }
{
    let held = names_of(alloc, maps, live)?;
    let dead = other_names(alloc, &maps.threads, &held)?;
    'dead: for name in dead.as_slice() {
        remove_named(alloc, maps, *name)?;
    }
    Ok(())
}
