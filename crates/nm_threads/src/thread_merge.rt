//! Two threads become one: the numbers of the smaller go to the group of the other. `rows` calls it for a row that comes.

ghost use Rattle.std.specs.Prelude.{◌≡◌, ◌==◌, ◌+◌, ℕ, List, min, Some, None, length, map, nat_eq, if◌then◌else◌, IfOk, MatchOption, OnOk, Contains};
ghost use Rattle.std.specs.List.{list_any};
ghost use Rattle.std.specs.List.Sorted.{IsStrictlySortedBy};
ghost use Rattle.std.specs.Option.{is_some};
ghost use Rattle.std.specs.Ordering.{nat_cmp};
ghost use Rattle.nm_threads.specs.Maps.{AreMaps, AreMembers, at, at_id, at_pair, is_number, labelling_of, relabelled};
ghost use Rattle.nm_threads.specs.declared.maps.Thread.{Thread};

use crate::maps::{Maps, Member, Thread};
use nm_base::{Many, MessageId, NoMemory, Steps};
use nm_shared::SharedMap;
use std::alloc::Global;
use std::sync::ledger::Ledger;

/// The group of a number, and its thread.
#[derive(Clone, Copy)]
pub struct Place {
    pub group: u64,
    pub thread: Thread,
}

/// Where an id is, if it has a number.
pub fn place_of(maps: &Maps, id: &MessageId) -> Option<Place>
    requires { AreMaps maps.now }
    ensures { MatchOption result (at_id id.now maps.now.numbers ≡ None) (λ place. (number : ℕ) × Contains maps.now.ids (number, id.now) × (at number maps.now.groups ≡ Some place.group) × (at place.group maps.now.threads ≡ Some place.thread)) }
{
    let number = maps.numbers.get(id)?;
    let group = *maps.groups.get_numbered(number)?;
    let thread = *maps.threads.get(&group)?;
    Some(Place { group, thread })
}

/// The same, and where the number of the next id is looked for first. That of this one is looked for at `slot_hint` first.
pub fn place_by_hint(maps: &Maps, id: &MessageId, slot_hint: u64) -> Option<(u64, Place)>
    requires { AreMaps maps.now }
    ensures { MatchOption result (at_id id.now maps.now.numbers ≡ None) (λ found. (number : ℕ) × Contains maps.now.ids (number, id.now) × (at number maps.now.groups ≡ Some found.1.group) × (at found.1.group maps.now.threads ≡ Some found.1.thread)) }
{
    let (next, number) = maps.numbers.get_by_hint(id, slot_hint)?;
    let group = *maps.groups.get_numbered(number)?;
    let thread = *maps.threads.get(&group)?;
    Some((next, Place { group, thread }))
}

/// Where the id of a number is.
pub fn place_at(maps: &Maps, number: u64) -> Place
    requires maps { AreMaps maps.now }
    requires known { (id : List ℕ) × Contains maps.now.ids (number, id) }
    ensures group { at number maps.now.groups ≡ Some result.group }
    ensures thread { at result.group maps.now.threads ≡ Some result.thread }
{
    let Some(group) = maps.groups.get_numbered(&number) else {
        unreachable!()
    };
    let Some(thread) = maps.threads.get(group) else {
        unreachable!()
    };
    Place {
        group: *group,
        thread: *thread,
    }
}

/// The numbers of a group.
pub fn numbers_of(
    alloc: Global,
    members: &SharedMap<(u64, u64), Member>,
    group: u64,
) -> Result<Many<u64>, NoMemory>
    ensures all { IfOk result (λ numbers. (number : ℕ) → list_any (nat_eq number) numbers ≡ is_some (at_pair (group, number) members.now)) }
    ensures rising { IfOk result (λ numbers. IsStrictlySortedBy nat_cmp numbers) }
{
    let mut numbers = Many::new(alloc);
    let mut rest = members.iter_from(&(group, 0));
    'members: while let Some(entry) = rest.next() {
        let (of, number) = entry.0;
        if of != group {
            return Ok(numbers);
        }
        numbers.push(number)?;
    }
    Ok(numbers)
}

/// Takes all numbers of one group into another.
fn move_numbers<L: Ledger>(
    groups: &mut SharedMap<u64, u64>,
    members: &mut SharedMap<(u64, u64), Member>,
    numbers: &[u64],
    from: u64,
    to: u64,
    steps: &mut Steps<L>,
) -> Result<(), NoMemory>
    requires members { AreMembers members.old groups.old }
    requires numbers { (number : ℕ) → list_any (nat_eq number) numbers.now ≡ is_number from (at number groups.old) }
    ensures members { OnOk result (AreMembers members.new groups.new) }
    ensures groups { OnOk result ((number : ℕ) → at number groups.new ≡ (if is_number from (at number groups.old) then Some to else at number groups.old)) }
    ensures steps { OnOk result (steps.new ≡ steps.old + length numbers.now) }
{
    'numbers: for number in numbers {
        steps.tick();
        groups.insert(*number, to)?;
        members.remove(&(from, *number))?;
        members.insert((to, *number), Member)?;
    }
    Ok(())
}

/// Joins the threads of two groups under the older name; the smaller one is relabelled.
pub fn join<L: Ledger>(
    alloc: Global,
    maps: &mut Maps,
    first: Place,
    second: Place,
    steps: &mut Steps<L>,
) -> Result<(), NoMemory>
    requires maps { AreMaps maps.old }
    requires first { at first.group maps.old.threads ≡ Some first.thread }
    requires second { at second.group maps.old.threads ≡ Some second.thread }
    ensures maps { OnOk result (AreMaps maps.new) }
    ensures ids { OnOk result (maps.new.ids ≡ maps.old.ids) }
    ensures next { OnOk result (maps.new.next ≡ maps.old.next) }
    ensures labels { OnOk result ((labelling_of maps.new).labels ≡ map (relabelled first.thread.name second.thread.name) (labelling_of maps.old).labels) }
    ensures steps { OnOk result (steps.new ≡ steps.old + (if first.group == second.group then 0 else min first.thread.len second.thread.len)) }
{
    if first.group == second.group {
        return Ok(());
    }
    let thread = Thread {
        name: first.thread.name.min(second.thread.name),
        len: first.thread.len.saturating_add(second.thread.len),
    };
    if first.thread.len < second.thread.len {
        merge(alloc, maps, first.group, second.group, thread, steps)?;
        return Ok(());
    }
    merge(alloc, maps, second.group, first.group, thread, steps)?;
    Ok(())
}

/// Takes one group into another, which has this thread then.
fn merge<L: Ledger>(
    alloc: Global,
    maps: &mut Maps,
    from: u64,
    to: u64,
    thread: Thread,
    steps: &mut Steps<L>,
) -> Result<(), NoMemory>
    requires members { AreMembers maps.old.members maps.old.groups }
    ensures ids { OnOk result (maps.new.ids ≡ maps.old.ids) }
    ensures numbers { OnOk result (maps.new.numbers ≡ maps.old.numbers) }
    ensures next { OnOk result (maps.new.next ≡ maps.old.next) }
    ensures members { OnOk result (AreMembers maps.new.members maps.new.groups) }
    ensures groups { OnOk result ((number : ℕ) → at number maps.new.groups ≡ (if is_number from (at number maps.old.groups) then Some to else at number maps.old.groups)) }
    ensures threads { OnOk result ((group : ℕ) → at group maps.new.threads ≡ (if nat_eq group to then Some thread else if nat_eq group from then None else at group maps.old.threads)) }
    ensures steps { OnOk result ((one : Thread) → AreMaps maps.old → at from maps.old.threads ≡ Some one → steps.new ≡ steps.old + one.len) }
{
    let numbers = numbers_of(alloc, &maps.members, from)?;
    move_numbers(
        &mut maps.groups,
        &mut maps.members,
        numbers.as_slice(),
        from,
        to,
        steps,
    )?;
    maps.threads.remove(&from)?;
    maps.threads.insert(to, thread)?;
    Ok(())
}
