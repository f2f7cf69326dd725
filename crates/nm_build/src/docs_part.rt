//! A part of the documents, of which one worker builds a segment: `cut` makes such parts.

ghost use Rattle.std.specs.Prelude.{◌≡◌, IfOk};
ghost use Rattle.nm_segment.specs.Docs.{AreDocs};

use nm_base::{Copies, Many, NoMemory};
use nm_segment::{DocWords, Segment, build};
use nm_workers::Job;
use std::alloc::Global;
use std::marker::Model;

/// Documents whose numbers rise, seen as the list of them.
#[derive(Drop)]
pub struct DocsPart {
    docs: Many<DocWords>,
}

impl Model for DocsPart {
    ghost use Rattle.std.specs.Prelude.{List};
    ghost use Rattle.nm_segment.specs.Docs.{AreDocs};
    ghost use Rattle.nm_segment.specs.declared.doc_words.DocWords.{DocWords};

    ghost Value = { List DocWords };

    ghost view = { λ p. p.docs };

    ghost invariant = { λ p. AreDocs p.docs };
}

impl DocsPart {
    pub fn new(alloc: Global, docs: &[DocWords]) -> Result<DocsPart, NoMemory>
        requires { AreDocs docs.now }
        ensures { IfOk result (λ part. part ≡ docs.now) }
    {
        let mut copies = Many::new(alloc);
        'docs: for doc in docs {
            copies.push(doc.copy()?)?;
        }
        Ok(DocsPart { docs: copies })
    }
}

/// The job of a worker: the segment of a part is built.
#[derive(Clone, Copy)]
pub struct BuildPart {
    pub alloc: Global,
}

impl Job for BuildPart {
    type In = DocsPart;

    type Out = Segment;

    ghost use Rattle.std.specs.Prelude.{◌≡◌};

    ghost gives = { λ _ part segment. segment ≡ part };

    fn run(&self, part: &DocsPart) -> Result<Segment, NoMemory> {
        build(self.alloc, &part.docs)
    }
}
