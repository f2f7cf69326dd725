//! What a disk in memory keeps of each call that wrote or synced: `mem_disk` notes it, and `crash` takes a moment of it.

ghost use Rattle.std.specs.Prelude.{◌≡◌};
ghost use Rattle.nm_disk.specs.Memory.{is_begun, writes};

use crate::FileNo;
use nm_base::Many;

/// What a call did to the disk.
#[derive(Drop)]
pub enum Deed {
    Write {
        file: FileNo,
        at: u64,
        bytes: Many<u8>,
    },
    /// A read gives the first `taken` of these bytes.
    FailedWrite {
        file: FileNo,
        at: u64,
        bytes: Many<u8>,
        taken: u64,
    },
    Sync,
    FailedSync,
}

/// A deed, and the number of its call since the disk was made, from 1.
#[derive(Drop)]
pub struct Event {
    pub call: u64,
    pub deed: Deed,
}

impl Event {
    /// Whether a crash within this call comes after it has begun: a sync within which the disk crashes has synced
    /// nothing.
    pub(crate) fn is_begun(&self, call: u64) -> bool
        ensures { result ≡ is_begun call self.now }
    {
        self.call < call || (self.call == call && self.deed.writes())
    }
}

impl Deed {
    fn writes(&self) -> bool
        ensures { result ≡ writes self.now }
    {
        match self {
            Deed::Write { .. } | Deed::FailedWrite { .. } => true,
            Deed::Sync | Deed::FailedSync => false,
        }
    }
}
