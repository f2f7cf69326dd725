//! The tags of messages, found by the hashes of their ids, with a count of what they take in an index as data: a part of
//! `nm_parts`. Ids come in any order, and in a map by ids each would go into a run of its own, which is copied first.

ghost use Rattle.std.specs.Prelude.{◌≡◌, [], ℕ, List, None, Some, if◌then◌else◌, IfOk, MatchOption, OnOk};
ghost use Rattle.std.specs.BTreeMap.{insert_entry, is_at};
ghost use Rattle.std.specs.Cmp.Lexicographic.{slice_cmp};
ghost use Rattle.std.specs.List.Sorted.{IsPermutation};
ghost use Rattle.std.specs.Map.{keys_of, lookup, remove_entry};
ghost use Rattle.std.specs.Option.{option_copied};
ghost use Rattle.std.specs.Ordering.{is_eq, nat_cmp};
ghost use Rattle.nm_base.specs.Order.{IsSorted};
ghost use Rattle.nm_tables.specs.FileTable.{at_text};
ghost use Rattle.nm_tables.specs.Measures.{all_tags_len};

use crate::iterators::Tagged;
use crate::measured_map::sum;
use nm_base::{Copies, MessageId, NoMemory, Tags};
use nm_record::{id_len, tags_len};
use nm_shared::{HashedMap, Shared};
use std::alloc::Global;
use std::marker::Model;

/// The tags of messages. A contract sees them as pairs, in the order of the ids.
pub struct MessageTags {
    map: HashedMap<MessageId, Shared<Tags>>,
    bytes: u64,
    /// Those that came last, which are often those that come next.
    last: Option<Shared<Tags>>,
}

impl Model for MessageTags {
    ghost use Rattle.std.specs.Prelude.{◌≡◌, ℕ, List};
    ghost use Rattle.std.specs.Coded.{coded_list, coded×, coded_ℕ};
    ghost use Rattle.nm_tables.specs.Measures.{all_tags_len};
    ghost use Rattle.nm_tables.specs.Sorted.{sorted_pairs};

    ghost Value = { List (List ℕ × List (List ℕ)) };

    ghost coded = { coded_list (coded× (coded_list coded_ℕ) (coded_list (coded_list coded_ℕ))) };

    ghost view = { λ t. sorted_pairs t.map };

    ghost invariant = { λ t. t.bytes ≡ all_tags_len (sorted_pairs t.map) };
}

impl Drop for MessageTags {
    fn drop(self) {
        let MessageTags {
            map: _,
            bytes: _,
            last: _,
        } = self;
    }
}

impl MessageTags {
    /// No tags of any message, in no memory.
    pub fn new(alloc: Global) -> MessageTags
        ensures { result ≡ [] }
    {
        MessageTags {
            map: HashedMap::new(alloc),
            bytes: 0,
            last: None,
        }
    }

    /// How many bytes all ids with their tags take.
    pub fn bytes(&self) -> u64
        ensures { result ≡ all_tags_len self.now }
    {
        self.bytes
    }

    /// The ids are in order. No code runs.
    pub fn order(&self)
        ensures { IsSorted (keys_of self.now) }
    {
        let _ = &self.map;
    }

    /// The tags of a message, if it has a set of them.
    pub fn get(&self, id: &MessageId) -> Option<&Shared<Tags>>
        ensures { option_copied result ≡ lookup (is_at (slice_cmp nat_cmp id.now)) self.now }
    {
        self.map.get(id)
    }

    /// The same, for less work where messages are asked for in the order in which they came. Beside the tags is where the
    /// next ones are looked for first; wherever a search begins, it finds the same.
    pub fn get_by_hint(&self, id: &MessageId, slot_hint: u64) -> Option<(u64, &Shared<Tags>)>
        ensures { MatchOption result (at_text id.now self.now ≡ None) (λ found. at_text id.now self.now ≡ Some found.1.now) }
    {
        self.map.get_by_hint(id, slot_hint)
    }

    /// The messages, in no particular order, each with its tags.
    pub fn iter(&self) -> Tagged<'_>
        ensures { IsPermutation self.now result }
    {
        Tagged::of(&self.map)
    }

    /// A clone, for far less than a copy. No change of one shows in the other.
    pub fn share(&self) -> Result<MessageTags, NoMemory>
        ensures { IfOk result (λ tags. tags ≡ self.now) }
    {
        Ok(MessageTags {
            map: self.map.share()?,
            bytes: self.bytes,
            last: shared_last(&self.last)?,
        })
    }

    /// Gives a message these tags and no others.
    pub fn insert(&mut self, alloc: Global, id: &MessageId, tags: Tags) -> Result<(), NoMemory>
        ensures tags { OnOk result (self.new ≡ insert_entry (slice_cmp nat_cmp) self.old id.now tags) }
        ensures found { OnOk result ((other : List ℕ) → at_text other self.new ≡ (if is_eq (slice_cmp nat_cmp other id.now) then Some tags else at_text other self.old)) }
    {
        let bytes = self.bytes_with(id, &tags)?;
        let shared = self.shared(alloc, tags)?;
        let last = shared.copy()?;
        self.map.insert(id.copy()?, shared)?;
        self.bytes = bytes;
        self.last = Some(last);
        Ok(())
    }

    /// Lets go the tags of a message.
    pub fn remove(&mut self, id: &MessageId) -> Result<(), NoMemory>
        ensures tags { OnOk result (self.new ≡ remove_entry (is_at (slice_cmp nat_cmp id.now)) self.old) }
        ensures found { OnOk result ((other : List ℕ) → at_text other self.new ≡ (if is_eq (slice_cmp nat_cmp other id.now) then None else at_text other self.old)) }
    {
        let bytes = self.bytes_without(id);
        self.map.remove(id)?;
        self.bytes = bytes;
        Ok(())
    }

    /// These tags: a clone of those that came last where they are the same, so that most messages share one set.
    fn shared(&self, alloc: Global, tags: Tags) -> Result<Shared<Tags>, NoMemory>
        ensures { IfOk result (λ shared. shared ≡ tags) }
    {
        let Some(last) = &self.last else {
            return Shared::new(alloc, tags);
        };
        if *last.get() == tags {
            return last.copy();
        }
        Shared::new(alloc, tags)
    }

    /// How many bytes all take once the message has these tags.
    fn bytes_with(&self, id: &MessageId, tags: &Tags) -> Result<u64, NoMemory>
        ensures { IfOk result (λ bytes. bytes ≡ all_tags_len (insert_entry (slice_cmp nat_cmp) self.now id.now tags.now)) }
    {
        self.order();
        let bytes = self.bytes();
        match self.get(id) {
            Some(old) => {
                let all = sum(bytes.saturating_sub(tags_len(old.get())), tags_len(tags))?;
                Ok(all)
            }
            None => {
                let with_id = sum(bytes, id_len(id))?;
                let all = sum(with_id, tags_len(tags))?;
                Ok(all)
            }
        }
    }

    /// How many bytes all take without those of the message.
    fn bytes_without(&self, id: &MessageId) -> u64
        ensures { result ≡ all_tags_len (remove_entry (is_at (slice_cmp nat_cmp id.now)) self.now) }
    {
        let bytes = self.bytes();
        match self.get(id) {
            Some(old) => bytes
                .saturating_sub(tags_len(old.get()))
                .saturating_sub(id_len(id)),
            None => bytes,
        }
    }
}

fn shared_last(last: &Option<Shared<Tags>>) -> Result<Option<Shared<Tags>>, NoMemory> {
    match last {
        None => Ok(None),
        Some(tags) => Ok(Some(tags.copy()?)),
    }
}
