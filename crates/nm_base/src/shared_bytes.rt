//! Bytes that several hold, for `WordList::lent`: the words of a record stay where they are.

ghost use Rattle.std.specs.Prelude.{◌≡◌, IfOk};

use crate::{Copies, NoMemory};
use std::alloc::{AllocError, Global};
use std::marker::Model;
use std::sync::Arc;

/// Bytes that several hold, and that are copied for nothing. A contract sees them as the bytes.
#[derive(Drop)]
pub struct SharedBytes {
    arc: Arc<Vec<u8>, Global>,
}

impl Model for SharedBytes {
    ghost use Rattle.std.specs.Arc.{arc_value};
    ghost use Rattle.std.specs.Prelude.{List, ℕ};

    ghost Value = { List ℕ };

    ghost view = { λ s. (arc_value s.arc).items };
}

impl SharedBytes {
    pub fn new(alloc: Global, bytes: Vec<u8>) -> Result<SharedBytes, NoMemory>
        ensures { IfOk result (λ shared. shared ≡ bytes.items) }
    {
        Ok(SharedBytes {
            arc: Arc::new(alloc, bytes)?,
        })
    }

    pub fn as_slice(&self) -> &[u8]
        ensures { result.now ≡ self.now }
    {
        (*self.arc).as_slice()
    }
}

impl Clone for SharedBytes {
    ghost is_clone = { λ bytes copy. copy ≡ bytes };

    fn clone(&self) -> Result<SharedBytes, AllocError> {
        Ok(SharedBytes {
            arc: Arc::try_clone(&self.arc)?,
        })
    }
}

/// The copy is a clone, over the same bytes.
impl Copies for SharedBytes {
    fn copy(&self) -> Result<SharedBytes, NoMemory> {
        Ok(self.clone()?)
    }
}
