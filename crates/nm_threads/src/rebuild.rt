//! Labels made anew of entries and rows, as an index that is opened has them, for `labels`.

ghost use Rattle.std.specs.Prelude.{◌≡◌, ◌<◌, ◌≤◌, ◌^◌, ◌++◌, ◌∷◌, [], List, map, OnOk};
ghost use Rattle.std.specs.List.{flat_map};
ghost use Rattle.nm_base.specs.declared.facts.LinkRow.{LinkRow};
ghost use Rattle.nm_threads.specs.Entries.{AreEntriesOf};
ghost use Rattle.nm_threads.specs.Labels.{AreLabelsOf, entries_of, numbered};
ghost use Rattle.nm_threads.specs.Maps.{AreMaps, labelling_of};
ghost use Rattle.nm_threads.specs.Same.{ids_of};

use crate::maps::Maps;
use crate::numbering::give_this_number;
use crate::rows::add_all;
use nm_base::{LinkRow, MessageId, NoMemory, Steps};
use std::alloc::Global;
use std::sync::ledger::{Blank, Ledger};

/// Gives each id the number beside it.
pub fn give_numbers(
    maps: &mut Maps,
    entries: &[(MessageId, u64)],
    next: u64,
) -> Result<(), NoMemory>
    requires none { (labelling_of maps.old).labels ≡ [] }
    requires first { maps.old.next ≡ 1 }
    requires maps { AreMaps maps.old }
    requires entries { AreEntriesOf [] entries.now next }
    ensures maps { OnOk result (AreMaps maps.new) }
    ensures entries { OnOk result (entries_of (labelling_of maps.new).labels ≡ entries.now) }
    ensures next { OnOk result (maps.new.next ≡ next) }
    ensures labels { OnOk result (AreLabelsOf [] (labelling_of maps.new).labels) }
{
    'entries: for entry in entries {
        give_this_number(maps, &entry.0, entry.1)?;
    }
    maps.next = next;
    Ok(())
}

/// Adds rows whose steps nobody counts.
pub fn add_uncounted<L: Ledger>(
    alloc: Global,
    maps: &mut Maps,
    rows: &[LinkRow],
    blank: Blank,
) -> Result<(), NoMemory>
    requires name { blank.name ≡ L.name }
    requires parts { blank.parts ≡ L.parts }
    requires whole { 0 < L.parts }
    requires maps { AreMaps maps.old }
    requires room { (numbered (entries_of (labelling_of maps.old).labels) maps.old.next (flat_map ids_of rows.now)).1 ≤ 2 ^ 63 }
    ensures maps { OnOk result (AreMaps maps.new) }
    ensures numbers { OnOk result ((entries_of (labelling_of maps.new).labels, maps.new.next) ≡ numbered (entries_of (labelling_of maps.old).labels) maps.old.next (flat_map ids_of rows.now)) }
    ensures labels { OnOk result ((others : List LinkRow) → AreLabelsOf others (labelling_of maps.old).labels → AreLabelsOf (rows.now ++ others) (labelling_of maps.new).labels) }
{
    let mut steps = Steps::<L>::begin(blank);
    add_all(alloc, maps, rows, &mut steps)
}
