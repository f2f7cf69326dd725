//! A set of names, ids or paths, as a rising list; `new` and the links of a mail take it.

ghost use Rattle.std.specs.Prelude.{◌≡◌, ◌<◌, ◌^◌, ◌||◌, [], length, not, IfOk, IsOk, OnOk, OnErr};
ghost use Rattle.std.specs.List.{list_any};
ghost use Rattle.std.specs.List.Sorted.{IsStrictlySortedBy};
ghost use Rattle.std.specs.BTreeMap.{is_at};
ghost use Rattle.std.specs.BTreeSet.{insert_key};
ghost use Rattle.std.specs.Set.{remove_key};
ghost use Rattle.std.specs.Map.Iter.{ShowsInOrder, deref};
ghost use Rattle.std.specs.Cmp.Lexicographic.{lists_equiv, lists_per, pointwise};

use crate::{Copies, Many, NoMemory};
use std::alloc::Global;
use std::collections::{BTreeSet, btree_set};
use std::marker::Model;

/// A set of texts, as names, ids or paths, seen as the strictly rising list of them.
#[derive(Clone, Drop)]
pub struct TextSet<T: Ord> {
    set: BTreeSet<T>,
}

impl<T: Ord> Model for TextSet<T> {
    ghost use Rattle.std.specs.Prelude.{List};
    ghost use Rattle.std.specs.Coded.{coded_list};
    ghost use Rattle.std.specs.List.Sorted.{IsStrictlySortedBy};

    ghost Value = { List T };

    ghost coded = { coded_list T.code };

    ghost view = { λ t. t.set.keys };

    ghost invariant = { λ t. IsStrictlySortedBy T.cmp t.set.keys };
}

impl<T: Ord> TextSet<T> {
    /// No text, which takes no memory.
    pub fn new(alloc: Global) -> TextSet<T>
        ensures { result ≡ [] }
    {
        TextSet {
            set: BTreeSet::new(alloc),
        }
    }

    pub fn len(&self) -> usize
        ensures len { result ≡ length self.now }
        ensures sorted { IsStrictlySortedBy T.cmp self.now }
    {
        self.set.len()
    }

    /// The texts in order.
    pub fn iter(&self) -> btree_set::Iter<'_, T>
        ensures rest { result ≡ self.now }
        ensures runs { ShowsInOrder (deref {X = T}) }
        ensures sorted { IsStrictlySortedBy T.cmp self.now }
        ensures few { length self.now < 2 ^ 63 }
    {
        self.set.iter()
    }

    pub fn contains(&self, text: &T) -> bool
        ensures { result ≡ list_any (T.eq text.now) self.now }
    {
        self.set.contains(text)
    }
}

impl<T: Ord + Drop> TextSet<T> {
    /// Says whether the text is new to the set.
    pub fn insert(&mut self, text: T) -> Result<bool, NoMemory>
        ensures ok { OnOk result (self.new ≡ insert_key T.cmp self.old text) }
        ensures has { OnOk result ((other : T) → list_any (T.eq other) self.new ≡ (T.eq other text || list_any (T.eq other) self.old)) }
        ensures new { IfOk result (λ is_new. is_new ≡ not (list_any (T.eq text) self.old)) }
        ensures err { OnErr result (self.new ≡ self.old) }
        ensures sorted { IsStrictlySortedBy T.cmp self.new }
    {
        Ok(self.set.insert(text)?)
    }

    pub fn remove(&mut self, text: &T)
        ensures list { self.new ≡ remove_key (is_at (T.cmp text.now)) self.old }
        ensures sorted { IsStrictlySortedBy T.cmp self.new }
    {
        self.set.remove(text);
    }

    /// The texts in order.
    pub fn into_list(self, alloc: Global) -> Result<Many<T>, NoMemory>
        ensures list { IfOk result (λ list. list ≡ self) }
        ensures sorted { IfOk result (λ list. IsStrictlySortedBy T.cmp list) }
    {
        let TextSet { set } = self;
        let list: Vec<T> = set.into_iter().collect(alloc)?;
        Ok(Many::from_vec(list))
    }
}

impl<T: Ord + Copies> TextSet<T> {
    /// Copies of the texts, in order.
    pub fn to_list(&self, alloc: Global) -> Result<Many<T>, NoMemory>
        ensures list { IfOk result (λ list. list ≡ self.now) }
        ensures sorted { IfOk result (λ list. IsStrictlySortedBy T.cmp list) }
    {
        let mut list = Vec::with_capacity(alloc, self.set.len())?;
        'texts: for text in &self.set {
            list.push(text.copy()?)?;
        }
        Ok(Many::from_vec(list))
    }
}

impl<T: Ord> PartialEq for TextSet<T> {
    ghost eq = { pointwise T.eq };

    ghost laws = { lists_per T.PartialEq.laws };

    fn eq(&self, other: &TextSet<T>) -> bool {
        self.set == other.set
    }
}

impl<T: Ord> Eq for TextSet<T> {
    ghost laws = { lists_equiv T.Eq.laws };
}
