//! A value that several clones share: each message of a snapshot of `nm_state` is one, and so are its tags.

ghost use Rattle.std.specs.Prelude.{◌≡◌, IfOk};

use nm_base::{Copies, NoMemory};
use std::alloc::Global;
use std::marker::Model;
use std::sync::Arc;

/// A value that several hold, and that is copied for nothing. A contract sees it as the value.
#[derive(Drop)]
pub struct Shared<T> {
    arc: Arc<T, Global>,
}

impl<T> Model for Shared<T> {
    ghost use Rattle.std.specs.Arc.{arc_value};

    ghost Value = { T };

    ghost coded = { T.code };

    ghost view = { λ s. arc_value s.arc };
}

impl<T> Shared<T> {
    pub fn new(alloc: Global, value: T) -> Result<Shared<T>, NoMemory>
    where
        T: Drop,
        ensures { IfOk result (λ shared. shared ≡ value) }
    {
        Ok(Shared {
            arc: Arc::new(alloc, value)?,
        })
    }

    pub fn get(&self) -> &T
        ensures { result.now ≡ self.now }
    {
        &*self.arc
    }
}

/// The copy is a clone, over the same value.
impl<T: Drop> Copies for Shared<T> {
    fn copy(&self) -> Result<Shared<T>, NoMemory> {
        Ok(Shared {
            arc: Arc::try_clone(&self.arc)?,
        })
    }
}
