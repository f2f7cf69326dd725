//! A reader of what is published: `nm_writer` hands some out where an index is opened.

ghost use Rattle.std.specs.Prelude.{◌≡◌, ◌⊎◌, IfOk};
ghost use Rattle.std.specs.Arc.{arc_value};
ghost use Rattle.left_right.specs.Sides.{view};
ghost use Rattle.nm_publish.specs.Published.{GoesOn, index_of};
ghost use Rattle.nm_publish.specs.Rule.{KnowsOf};

use crate::seats::{ReaderSeat, look};
use crate::shown::Shown;
use core::mem;
use nm_base::NoMemory;
use nm_state::Snapshot;
use std::alloc::Global;
use std::marker::Model;
use std::sync::Arc;

/// Sees what is shown. It waits for nobody. A contract sees what the reader has seen or learned.
pub struct Reader {
    seat: ReaderSeat,
    seen: Shown,
}

impl Model for Reader {
    ghost use Rattle.left_right.specs.Sides.{view as knowledge};
    ghost use Rattle.nm_publish.specs.Published.{Published};
    ghost use Rattle.nm_publish.specs.Rule.{KnowsOf};

    ghost Value = { Published };

    ghost view = { λ r. r.seen };

    ghost invariant = { λ r. KnowsOf (knowledge r.seat.place) r.seen.book };
}

impl Drop for Reader {
    fn drop(self) {
        let Reader { seat: _, seen: _ } = self;
    }
}

impl Reader {
    pub(crate) fn new(seat: ReaderSeat, seen: Shown) -> Reader
        requires { KnowsOf (view seat.place) seen.book }
        ensures { result ≡ seen }
    {
        Reader { seat, seen }
    }

    /// The snapshot that is shown now. Its commits begin with all that this reader had seen and learned, and it has seen them
    /// then, also where no memory was found for the copy that is handed out. Once the writer has finished it finds none.
    pub fn see(&mut self) -> Result<Arc<Snapshot, Global>, NoMemory>
        ensures grown { GoesOn self.old self.new }
        ensures snapshot { IfOk result (λ snap. arc_value snap ≡ index_of self.new) }
    {
        let Some(found) = mem::replace_with(&mut self.seat, &self.seen, look) else {
            return Err(NoMemory);
        };
        // What is shown is never older than what was learned; the proofs don't know that.
        if !self.seen.is_before(&found.shown) {
            return Err(NoMemory);
        }
        self.seen = found.shown;
        found.snap
    }

    /// Learns what was shown. Of what this reader has and what it learns one begins the other, and it has the longer then.
    pub fn learn(&mut self, shown: Shown)
        requires { shown.book ≡ self.old.book }
        ensures one { (self.new ≡ self.old) ⊎ (self.new ≡ shown) }
        ensures grown { GoesOn self.old self.new }
        ensures learned { GoesOn shown self.new }
    {
        if self.seen.is_before(&shown) {
            self.seen = shown;
        }
    }

    /// The revision of what this reader has seen or learned.
    pub fn revision(&self) -> u64
        ensures { result ≡ (index_of self.now).revision }
    {
        self.seen.revision()
    }
}
