//! The list of all crates, seen in contracts as its items: `Tags`, `TextSet`, `Room` and `Facts` are made of it.

ghost use Rattle.std.specs.Prelude.{◌≡◌, ◌==◌, ◌<◌, Some, [], ◌∷◌, ◌++◌, length, slice_get, slice_set, IfOk, MatchOption, OnOk, OnErr};
ghost use Rattle.std.specs.Cmp.Lexicographic.{lists_equiv, lists_per, pointwise};
ghost use Rattle.std.specs.Option.{option_copied};

use crate::{Copies, NoMemory};
use std::alloc::Global;
use std::marker::Model;
use std::mem;

/// A vector that contracts see as the list of its items.
#[derive(Clone, Drop)]
pub struct Many<T> {
    vec: Vec<T>,
}

impl<T> Model for Many<T> {
    ghost use Rattle.std.specs.Prelude.{List};
    ghost use Rattle.std.specs.Coded.{coded_list};

    ghost Value = { List T };

    ghost coded = { coded_list T.code };

    ghost view = { λ m. m.vec.items };
}

impl<T> Many<T> {
    /// An empty list, which takes no memory.
    pub fn new(alloc: Global) -> Many<T>
        ensures { result ≡ [] }
    {
        Many {
            vec: Vec::new(alloc),
        }
    }

    pub fn from_vec(vec: Vec<T>) -> Many<T>
        ensures { result ≡ vec.items }
    {
        Many { vec }
    }

    pub fn into_vec(self) -> Vec<T>
        ensures { result.items ≡ self }
    {
        let Many { vec } = self;
        vec
    }

    pub fn len(&self) -> usize
        ensures { result ≡ length self.now }
    {
        self.vec.len()
    }

    pub fn is_empty(&self) -> bool
        ensures { result ≡ (length self.now == 0) }
    {
        self.vec.is_empty()
    }

    pub fn get(&self, at: usize) -> Option<&T>
        ensures { option_copied result ≡ slice_get self.now at }
    {
        self.vec.get(at)
    }

    pub fn as_slice(&self) -> &[T]
        ensures { result.now ≡ self.now }
    {
        self.vec.as_slice()
    }

    pub fn pop(&mut self) -> Option<T>
        ensures { MatchOption result ((self.old ≡ []) × (self.new ≡ [])) (λ last. self.old ≡ self.new ++ last ∷ []) }
    {
        self.vec.pop()
    }

    /// Gives back the memory of places that no item fills.
    pub fn shrink_to_fit(&mut self)
        ensures { self.new ≡ self.old }
    {
        self.vec.shrink_to_fit();
    }

    /// Puts `item` into the place `at`, and hands out what was there.
    pub fn replace(&mut self, at: usize, item: T) -> T
        requires { at < length self.old }
        ensures value { slice_get self.old at ≡ Some result }
        ensures list { self.new ≡ slice_set self.old at item }
    {
        mem::replace(&mut self.vec[at], item)
    }
}

impl<T: Drop> Many<T> {
    pub fn push(&mut self, item: T) -> Result<(), NoMemory>
        ensures ok { OnOk result (self.new ≡ self.old ++ item ∷ []) }
        ensures err { OnErr result (self.new ≡ self.old) }
    {
        self.vec.push(item)?;
        Ok(())
    }
}

impl<T: Copy> Many<T> {
    pub fn from_slice(alloc: Global, items: &[T]) -> Result<Many<T>, NoMemory>
        ensures { IfOk result (λ many. many ≡ items.now) }
    {
        Ok(Many {
            vec: Vec::from_slice(alloc, items)?,
        })
    }

    pub fn extend_from_slice(&mut self, items: &[T]) -> Result<(), NoMemory>
        ensures ok { OnOk result (self.new ≡ self.old ++ items.now) }
        ensures err { OnErr result (self.new ≡ self.old) }
    {
        self.vec.extend_from_slice(items)?;
        Ok(())
    }
}

impl<T: Copies> Copies for Many<T> {
    fn copy(&self) -> Result<Many<T>, NoMemory> {
        let mut copied = Vec::with_capacity(*self.vec.allocator(), self.vec.len())?;
        'items: for item in self.vec.as_slice() {
            copied.push(item.copy()?)?;
        }
        Ok(Many { vec: copied })
    }
}

impl<T: PartialEq> PartialEq for Many<T> {
    ghost eq = { pointwise T.eq };

    ghost laws = { lists_per T.laws };

    fn eq(&self, other: &Many<T>) -> bool {
        self.as_slice() == other.as_slice()
    }
}

impl<T: Eq> Eq for Many<T> {
    ghost laws = { lists_equiv T.Eq.laws };
}
