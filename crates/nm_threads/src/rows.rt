//! A row that comes: its ids get numbers, and their threads become one. `Labels` calls it.

ghost use Rattle.std.specs.Prelude.{◌≡◌, ◌+◌, ◌-◌, ◌<◌, ◌≤◌, ◌^◌, ◌∷◌, ◌++◌, [], ℕ, List, length, min, false, Contains, OnOk};
ghost use Rattle.std.specs.List.{flat_map};
ghost use Rattle.nm_base.specs.declared.facts.LinkRow.{LinkRow};
ghost use Rattle.nm_threads.specs.Fits.{Fits, Links};
ghost use Rattle.nm_threads.specs.Labels.{AreLabelsOf, entries_of, has_entry, numbered, thread_len};
ghost use Rattle.nm_threads.specs.Maps.{AreMaps, labelling_of};
ghost use Rattle.nm_threads.specs.Same.{ids_of};
ghost use Rattle.nm_threads.specs.Work.{Doubles, potential, row_steps, rows_steps};

use crate::maps::Maps;
use crate::numbering::give_number;
use crate::thread_merge::{join, place_at};
use nm_base::{LinkRow, MessageId, NoMemory, Steps};
use std::alloc::Global;
use std::sync::ledger::Ledger;

/// Adds one link to the row of an id that has a number, this one.
fn add_link<L: Ledger>(
    alloc: Global,
    maps: &mut Maps,
    own: &MessageId,
    number: u64,
    link: &MessageId,
    steps: &mut Steps<L>,
) -> Result<(), NoMemory>
    requires maps { AreMaps maps.old }
    requires own { Contains maps.old.ids (number, own.now) }
    requires room { has_entry (entries_of (labelling_of maps.old).labels) link.now ≡ false → maps.old.next < 2 ^ 63 }
    ensures maps { OnOk result (AreMaps maps.new) }
    ensures own { OnOk result (Contains maps.new.ids (number, own.now)) }
    ensures links { OnOk result (Links (labelling_of maps.old) (labelling_of maps.new) own.now link.now) }
    ensures steps { OnOk result (steps.new + thread_len own.now (labelling_of maps.old).labels ≤ steps.old + 1 + thread_len own.now (labelling_of maps.new).labels) }
    ensures exact { OnOk result (steps.new ≡ steps.old + 1 + min (thread_len own.now (labelling_of maps.old).labels) (thread_len own.now (labelling_of maps.new).labels - thread_len own.now (labelling_of maps.old).labels)) }
    ensures work { OnOk result ((f : ℕ → ℕ) → Doubles f → steps.new + potential f (labelling_of maps.old).labels ≤ steps.old + 1 + potential f (labelling_of maps.new).labels) }
{
    steps.tick();
    let other = give_number(maps, link)?;
    let first = place_at(maps, number);
    let second = place_at(maps, other);
    join(alloc, maps, first, second, steps)?;
    Ok(())
}

/// Adds a row: its ids have numbers then, and are of one thread.
pub fn add<L: Ledger>(
    alloc: Global,
    maps: &mut Maps,
    row: &LinkRow,
    steps: &mut Steps<L>,
) -> Result<(), NoMemory>
    requires maps { AreMaps maps.old }
    requires room { (numbered (entries_of (labelling_of maps.old).labels) maps.old.next (ids_of row.now)).1 ≤ 2 ^ 63 }
    ensures maps { OnOk result (AreMaps maps.new) }
    ensures numbers { OnOk result ((entries_of (labelling_of maps.new).labels, maps.new.next) ≡ numbered (entries_of (labelling_of maps.old).labels) maps.old.next (ids_of row.now)) }
    ensures labels { OnOk result ((rows : List LinkRow) → AreLabelsOf rows (labelling_of maps.old).labels → AreLabelsOf (row.now ∷ rows) (labelling_of maps.new).labels) }
    ensures steps { OnOk result (steps.new ≤ steps.old + length (ids_of row.now) + thread_len row.now.id (labelling_of maps.new).labels) }
    ensures looked { OnOk result (steps.old + length (ids_of row.now) ≤ steps.new) }
    ensures exact { OnOk result ((rows : List LinkRow) → AreLabelsOf rows (labelling_of maps.old).labels → steps.new ≡ steps.old + row_steps rows (entries_of (labelling_of maps.old).labels, maps.old.next) row.now) }
    ensures work { OnOk result ((f : ℕ → ℕ) → Doubles f → steps.new + potential f (labelling_of maps.old).labels ≤ steps.old + length (ids_of row.now) + potential f (labelling_of maps.new).labels) }
{
    steps.tick();
    let number = give_number(maps, &row.id)?;
    'links: for link in row.links.as_slice() {
        add_link(alloc, maps, &row.id, number, link, steps)?;
    }
    Ok(())
}

/// Adds rows, one after the other.
pub fn add_all<L: Ledger>(
    alloc: Global,
    maps: &mut Maps,
    rows: &[LinkRow],
    steps: &mut Steps<L>,
) -> Result<(), NoMemory>
    requires maps { AreMaps maps.old }
    requires room { (numbered (entries_of (labelling_of maps.old).labels) maps.old.next (flat_map ids_of rows.now)).1 ≤ 2 ^ 63 }
    ensures maps { OnOk result (AreMaps maps.new) }
    ensures numbers { OnOk result ((entries_of (labelling_of maps.new).labels, maps.new.next) ≡ numbered (entries_of (labelling_of maps.old).labels) maps.old.next (flat_map ids_of rows.now)) }
    ensures labels { OnOk result ((others : List LinkRow) → AreLabelsOf others (labelling_of maps.old).labels → AreLabelsOf (rows.now ++ others) (labelling_of maps.new).labels) }
    ensures looked { OnOk result (steps.old + length (flat_map ids_of rows.now) ≤ steps.new) }
    ensures exact { OnOk result ((others : List LinkRow) → AreLabelsOf others (labelling_of maps.old).labels → steps.new ≡ steps.old + rows_steps others (entries_of (labelling_of maps.old).labels, maps.old.next) [] rows.now) }
    ensures work { OnOk result ((f : ℕ → ℕ) → Doubles f → steps.new + potential f (labelling_of maps.old).labels ≤ steps.old + length (flat_map ids_of rows.now) + potential f (labelling_of maps.new).labels) }
{
    'rows: for row in rows {
        add(alloc, maps, row, steps)?;
    }
    Ok(())
}
