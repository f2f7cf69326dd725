//! A thread that goes: its ids lose their numbers. `Labels` calls it.

ghost use Rattle.std.specs.Prelude.{◌≡◌, ◌==◌, ℕ, None, Some, not, OnOk, if◌then◌else◌};
ghost use Rattle.std.specs.List.{list_any, filter};
ghost use Rattle.std.specs.List.Sorted.{IsStrictlySortedBy};
ghost use Rattle.std.specs.Ordering.{nat_cmp};
ghost use Rattle.nm_threads.specs.Labels.{without_name};
ghost use Rattle.nm_threads.specs.Maps.{AreMaps, AreNumbers, at, is_number, labelling_of};

use crate::maps::Maps;
use crate::members::group_named;
use crate::thread_merge::numbers_of;
use nm_base::{Copies, NoMemory};
use std::alloc::Global;

/// Lets go one number of a group, and its id.
fn remove_number(maps: &mut Maps, number: u64, group: u64) -> Result<(), NoMemory>
    requires numbers { AreNumbers maps.old }
    requires group { at number maps.old.groups ≡ Some group }
    ensures numbers { OnOk result (AreNumbers maps.new) }
    ensures ids { OnOk result (maps.new.ids ≡ filter (λ entry. not (entry.0 == number)) maps.old.ids) }
    ensures groups { OnOk result ((n : ℕ) → at n maps.new.groups ≡ (if n == number then None else at n maps.old.groups)) }
    ensures threads { OnOk result (maps.new.threads ≡ maps.old.threads) }
    ensures next { OnOk result (maps.new.next ≡ maps.old.next) }
{
    let Some(id) = maps.ids.get_numbered(&number) else {
        return Ok(());
    };
    let id = id.copy()?;
    maps.numbers.remove(&id)?;
    maps.ids.remove(&number)?;
    maps.groups.remove(&number)?;
    maps.members.remove(&(group, number))?;
    Ok(())
}

/// Lets go numbers of a group, and their ids.
fn remove_numbers(maps: &mut Maps, numbers: &[u64], group: u64) -> Result<(), NoMemory>
    requires numbers { AreNumbers maps.old }
    requires group { (number : ℕ) → list_any (λ other. number == other) numbers.now ≡ is_number group (at number maps.old.groups) }
    requires sorted { IsStrictlySortedBy nat_cmp numbers.now }
    ensures numbers { OnOk result (AreNumbers maps.new) }
    ensures ids { OnOk result (maps.new.ids ≡ filter (λ entry. not (is_number group (at entry.0 maps.old.groups))) maps.old.ids) }
    ensures groups { OnOk result ((n : ℕ) → at n maps.new.groups ≡ (if is_number group (at n maps.old.groups) then None else at n maps.old.groups)) }
    ensures threads { OnOk result (maps.new.threads ≡ maps.old.threads) }
    ensures next { OnOk result (maps.new.next ≡ maps.old.next) }
{
    'numbers: for number in numbers {
        remove_number(maps, *number, group)?;
    }
    Ok(())
}

/// Lets go the thread of this name, if there is one.
pub fn remove_named(alloc: Global, maps: &mut Maps, name: u64) -> Result<(), NoMemory>
    requires { AreMaps maps.old }
    ensures maps { OnOk result (AreMaps maps.new) }
    ensures next { OnOk result (maps.new.next ≡ maps.old.next) }
    ensures labels { OnOk result ((labelling_of maps.new).labels ≡ without_name name (labelling_of maps.old).labels) }
{
    let Some(group) = group_named(maps, name) else {
        return Ok(());
    };
    let numbers = numbers_of(alloc, &maps.members, group)?;
    remove_numbers(maps, numbers.as_slice(), group)?;
    maps.threads.remove(&group)?;
    Ok(())
}
