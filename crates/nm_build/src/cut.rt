//! Documents are cut into parts: `workers` gives each worker one after the other.

ghost use Rattle.std.specs.Prelude.{◌≡◌, ◌<◌, IfOk};
ghost use Rattle.nm_build.specs.Parts.{joined};
ghost use Rattle.nm_segment.specs.Docs.{AreDocs};

use crate::docs_part::DocsPart;
use nm_base::{Many, NoMemory};
use nm_segment::DocWords;
use std::alloc::Global;

/// Cuts documents into parts, each but the last of this many.
pub fn cut_docs(alloc: Global, docs: &[DocWords], len: usize) -> Result<Many<DocsPart>, NoMemory>
    requires docs { AreDocs docs.now }
    requires len { 0 < len }
    ensures { IfOk result (λ parts. joined parts ≡ docs.now) }
{
    let mut parts = Many::new(alloc);
    let mut rest = docs;
    'parts: while !rest.is_empty() {
        let (part, others) = rest.split_at(rest.len().min(len));
        parts.push(DocsPart::new(alloc, part)?)?;
        rest = others;
    }
    Ok(parts)
}
