//! The maps that `labels` are kept in: each step of the work, as `thread_merge` or `removal`, changes some of them.

ghost use Rattle.std.specs.Prelude.{◌≡◌, [], IfOk, OnOk};

use nm_base::{Copies, MessageId, NoMemory};
use nm_shared::{HashedMap, SharedMap};
use std::alloc::Global;

/// The name of a thread, and how many ids it has, which says on which side less is to be relabelled.
#[derive(Clone, Copy)]
pub struct Thread {
    pub name: u64,
    pub len: u64,
}

impl Copies for Thread {
    fn copy(&self) -> Result<Thread, NoMemory> {
        Ok(*self)
    }
}

/// What is beside a group and a number: the number is of the group.
#[derive(Clone, Copy)]
pub struct Member;

impl Copies for Member {
    fn copy(&self) -> Result<Member, NoMemory> {
        Ok(*self)
    }
}

/// Ids by number, numbers by id, and the threads: groups of numbers.
pub struct Maps {
    pub ids: SharedMap<u64, MessageId>,
    pub numbers: HashedMap<MessageId, u64>,
    /// The group of each number.
    pub groups: SharedMap<u64, u64>,
    /// The thread of each group.
    pub threads: SharedMap<u64, Thread>,
    /// The groups with their numbers.
    pub members: SharedMap<(u64, u64), Member>,
    pub next: u64,
}

// By hand, so that letting go of maps is one call where it is proved.
impl Drop for Maps {
    fn drop(self) {
        let Maps {
            ids: _,
            numbers: _,
            groups: _,
            threads: _,
            members: _,
            next: _,
        } = self;
    }
}

impl Maps {
    pub fn new(alloc: Global) -> Maps
        ensures ids { result.ids ≡ [] }
        ensures numbers { result.numbers ≡ [] }
        ensures groups { result.groups ≡ [] }
        ensures threads { result.threads ≡ [] }
        ensures members { result.members ≡ [] }
        ensures next { result.next ≡ 1 }
    {
        Maps {
            ids: SharedMap::new(alloc),
            numbers: HashedMap::new(alloc),
            groups: SharedMap::new(alloc),
            threads: SharedMap::new(alloc),
            members: SharedMap::new(alloc),
            next: 1,
        }
    }

    /// Clones of all maps.
    pub fn share(&self, alloc: Global) -> Result<Maps, NoMemory>
        ensures { IfOk result (λ maps. maps ≡ self.now) }
    {
        let mut maps = Maps::new(alloc);
        share_into(&mut maps.ids, &self.ids)?;
        maps.numbers = self.numbers.share()?;
        share_into(&mut maps.groups, &self.groups)?;
        share_into(&mut maps.threads, &self.threads)?;
        share_into(&mut maps.members, &self.members)?;
        maps.next = self.next;
        Ok(maps)
    }
}

/// Makes `map` a clone of `other`.
fn share_into<K: Ord + Drop, V: Drop>(
    map: &mut SharedMap<K, V>,
    other: &SharedMap<K, V>,
) -> Result<(), NoMemory>
    ensures { OnOk result (map.new ≡ other.now) }
{
    *map = other.share()?;
    Ok(())
}
