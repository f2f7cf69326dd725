//! A list with reserved places, in which a push takes no memory: `nm_writer` and `nm_session` keep the log in it.

ghost use Rattle.std.specs.Prelude.{◌≡◌, ℕ, ◌+◌, ◌<◌, ◌≤◌, [], ◌∷◌, ◌++◌, OnOk, OnErr};

use crate::{Many, NoMemory};
use std::alloc::Global;
use std::marker::Model;

/// A vector with places kept free: seen as its list, and the number of spare places.
#[derive(Drop)]
pub struct Room<T> {
    vec: Vec<T>,
    spare: usize,
}

impl<T> Model for Room<T> {
    ghost use Rattle.std.specs.Prelude.{List, ℕ, ◌+◌, ◌≤◌, vec_len, vec_capacity};
    ghost use Rattle.std.specs.Coded.{coded_list, coded_ℕ, coded×};

    ghost Value = { List T × ℕ };

    ghost coded = { coded× (coded_list T.code) coded_ℕ };

    ghost view = { λ r. (r.vec.items, r.spare) };

    ghost invariant = { λ r. vec_len r.vec + r.spare ≤ vec_capacity r.vec };
}

impl<T> Room<T> {
    /// Empty, with no spare place.
    pub fn new(alloc: Global) -> Room<T>
        ensures { result ≡ ([], 0) }
    {
        Room {
            vec: Vec::new(alloc),
            spare: 0,
        }
    }

    /// At least `more` places are spare afterwards.
    pub fn reserve(&mut self, more: usize) -> Result<(), NoMemory>
        ensures list { self.new.0 ≡ self.old.0 }
        ensures ok { OnOk result (more ≤ self.new.1) }
        ensures err { OnErr result (self.new.1 ≡ self.old.1) }
    {
        if self.spare < more {
            self.vec.reserve(more)?;
            self.spare = more;
        }
        Ok(())
    }

    pub fn push_spare(&mut self, item: T)
        requires { 0 < self.old.1 }
        ensures list { self.new.0 ≡ self.old.0 ++ item ∷ [] }
        ensures spare { self.new.1 + 1 ≡ self.old.1 }
    {
        match self.vec.push(item) {
            Ok(()) => {}
            Err(_) => unreachable!(),
        }
        self.spare -= 1;
    }

    pub fn as_slice(&self) -> &[T]
        ensures { result.now ≡ self.now.0 }
    {
        self.vec.as_slice()
    }

    pub fn into_many(self) -> Many<T>
        ensures { result ≡ self.0 }
    {
        let Room { vec, spare: _ } = self;
        Many::from_vec(vec)
    }
}
