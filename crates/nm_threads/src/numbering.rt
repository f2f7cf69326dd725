//! Numbers for ids: `rows` gives them to the ids of a row that comes, `rebuild` to those that have one.

ghost use Rattle.std.specs.Prelude.{◌≡◌, ◌+◌, ◌<◌, ◌≤◌, ◌^◌, ◌++◌, ◌∷◌, [], ℕ, List, false, Contains, IfOk, OnOk};
ghost use Rattle.nm_threads.specs.Labels.{entries_of, has_entry};
ghost use Rattle.nm_threads.specs.Maps.{AreMaps, given, labelling_of};

use crate::maps::{Maps, Member, Thread};
use nm_base::{Copies, MessageId, NoMemory};

/// Gives an id without a number the next one; it is a thread of its own. The answer is the number of the id.
pub fn give_number(maps: &mut Maps, id: &MessageId) -> Result<u64, NoMemory>
    requires maps { AreMaps maps.old }
    requires room { has_entry (entries_of (labelling_of maps.old).labels) id.now ≡ false → maps.old.next < 2 ^ 63 }
    ensures maps { OnOk result (AreMaps maps.new) }
    ensures given { OnOk result (labelling_of maps.new ≡ given (labelling_of maps.old) id.now) }
    ensures number { IfOk result (λ number. Contains maps.new.ids (number, id.now)) }
    ensures others { OnOk result ((number : ℕ) (other : List ℕ) → Contains maps.old.ids (number, other) → Contains maps.new.ids (number, other)) }
{
    let number = maps.next;
    if let Some(there) = maps.numbers.insert_new(id, number)? {
        return Ok(there);
    }
    let thread = Thread {
        name: number,
        len: 1,
    };
    maps.ids.insert(number, id.copy()?)?;
    maps.groups.insert(number, number)?;
    maps.threads.insert(number, thread)?;
    maps.members.insert((number, number), Member)?;
    maps.next = number + 1;
    Ok(number)
}

/// Gives an id this number; it is a thread of its own. The next number comes after it.
pub fn give_this_number(maps: &mut Maps, id: &MessageId, number: u64) -> Result<(), NoMemory>
    requires maps { AreMaps maps.old }
    requires number { (maps.old.next ≤ number) × (number < 2 ^ 63) }
    requires absent { has_entry (entries_of (labelling_of maps.old).labels) id.now ≡ false }
    ensures maps { OnOk result (AreMaps maps.new) }
    ensures next { OnOk result (maps.new.next ≡ number + 1) }
    ensures labels { OnOk result ((labelling_of maps.new).labels ≡ (labelling_of maps.old).labels ++ (record { id = id.now; number = number; name = number }) ∷ []) }
{
    maps.next = number;
    give_number(maps, id)?;
    Ok(())
}
