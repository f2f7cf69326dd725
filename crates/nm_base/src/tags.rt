//! A set of tags: each message of a commit has one, and `nm_tags` changes it.

ghost use Rattle.std.specs.Prelude.{◌≡◌, ◌<◌, ◌^◌, [], length, IfOk, OnOk, OnErr};
ghost use Rattle.std.specs.Map.Iter.{ShowsInOrder, deref};
ghost use Rattle.nm_base.specs.Order.{IsSorted};
ghost use Rattle.nm_base.specs.Tags.{has_tag, with_tag, without_tag};

use crate::{Copies, Many, NoMemory, Tag, TextSet};
use std::alloc::Global;
use std::collections::btree_set;
use std::marker::Model;

/// A set of tags, seen as the strictly rising list of them.
#[derive(Clone, Drop, PartialEq, Eq)]
pub struct Tags {
    set: TextSet<Tag>,
}

impl Model for Tags {
    ghost use Rattle.std.specs.Prelude.{List, ℕ};
    ghost use Rattle.nm_base.specs.Order.{IsSorted};

    ghost Value = { List (List ℕ) };

    ghost view = { λ t. t.set };

    ghost invariant = { λ t. IsSorted t.set };

    ghost inverse = { λ tags. record { set = tags } };
}

impl Tags {
    /// No tag, which takes no memory.
    pub fn new(alloc: Global) -> Tags
        ensures list { result ≡ [] }
        ensures sorted { IsSorted result }
    {
        Tags {
            set: TextSet::new(alloc),
        }
    }

    pub fn has(&self, tag: &Tag) -> bool
        ensures { result ≡ has_tag self.now tag.now }
    {
        self.set.contains(tag)
    }

    pub fn add(&mut self, tag: Tag) -> Result<(), NoMemory>
        ensures ok { OnOk result (self.new ≡ with_tag self.old tag) }
        ensures err { OnErr result (self.new ≡ self.old) }
        ensures sorted { IsSorted self.new }
    {
        self.set.insert(tag)?;
        Ok(())
    }

    pub fn remove(&mut self, tag: &Tag)
        ensures list { self.new ≡ without_tag self.old tag.now }
        ensures sorted { IsSorted self.new }
    {
        self.set.remove(tag);
    }

    /// The tags in order, one by one.
    pub fn iter(&self) -> btree_set::Iter<'_, Tag>
        ensures rest { result ≡ self.now }
        ensures runs { ShowsInOrder (deref {X = Tag}) }
        ensures sorted { IsSorted self.now }
        ensures few { length self.now < 2 ^ 63 }
    {
        self.set.iter()
    }

    /// The tags in order.
    pub fn to_list(&self, alloc: Global) -> Result<Many<Tag>, NoMemory>
        ensures list { IfOk result (λ list. list ≡ self.now) }
        ensures sorted { IsSorted self.now }
    {
        self.set.to_list(alloc)
    }
}

impl Copies for Tags {
    fn copy(&self) -> Result<Tags, NoMemory> {
        Ok(self.clone()?)
    }
}
