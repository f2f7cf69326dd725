//! The numbers of the documents that live: `merged_segment` and `part` ask it of documents and of hits.

ghost use Rattle.std.specs.Prelude.{◌≡◌, ℕ, IfOk};
ghost use Rattle.nm_segment.specs.Merge.{lives};

use nm_base::NoMemory;
use std::alloc::Global;
use std::collections::BTreeSet;
use std::marker::Model;

/// Numbers of documents, seen as the rising list of them.
#[derive(Drop)]
pub struct LiveDocs {
    numbers: BTreeSet<u32>,
}

impl Model for LiveDocs {
    ghost use Rattle.std.specs.Prelude.{List, ℕ};

    ghost Value = { List ℕ };

    ghost view = { λ l. l.numbers.keys };
}

impl LiveDocs {
    /// The documents with these numbers, in any order.
    pub fn new(alloc: Global, docs: &[u32]) -> Result<LiveDocs, NoMemory>
        ensures { IfOk result (λ live. (doc : ℕ) → lives live doc ≡ lives docs.now doc) }
    {
        let mut numbers = BTreeSet::new(alloc);
        'docs: for doc in docs {
            numbers.insert(*doc)?;
        }
        Ok(LiveDocs { numbers })
    }

    pub fn has(&self, doc: u32) -> bool
        ensures { result ≡ lives self.now doc }
    {
        self.numbers.contains(&doc)
    }
}
