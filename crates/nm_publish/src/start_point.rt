//! A publisher and its readers, made where `nm_writer` opens an index.

ghost use Rattle.std.specs.Prelude.{◌≡◌, [], None, IfOk, replicate};
ghost use Rattle.std.specs.Arc.{arc_value};

use crate::publisher::Shower;
use crate::reader::Reader;
use nm_base::{Many, NoMemory};
use nm_state::Snapshot;
use std::alloc::Global;
use std::sync::{Arc, Wait};

/// The publisher, and those that read.
pub struct Started {
    pub shower: Shower,
    pub readers: Many<Reader>,
}

/// Shows a first snapshot to n readers, each of which has seen it.
pub fn start<R: Wait>(
    rt: &R,
    alloc: Global,
    first: Arc<Snapshot, Global>,
    readers: u32,
) -> Result<Started, NoMemory>
    ensures opening { IfOk result (λ started. started.shower.shown.opening ≡ arc_value first) }
    ensures commits { IfOk result (λ started. (started.shower.shown.commits ≡ []) × (started.shower.staged ≡ None)) }

    // There are as many readers as were asked for, and each has what was shown.
    ensures readers { IfOk result (λ started. started.readers ≡ replicate readers started.shower.shown) }
{
    let mut shower = Shower::open(rt, alloc, first, readers)?;
    match readers_of(alloc, &mut shower, readers) {
        Ok(readers) => Ok(Started { shower, readers }),
        Err(NoMemory) => {
            shower.finish(rt);
            Err(NoMemory)
        }
    }
}

/// N readers.
fn readers_of(alloc: Global, shower: &mut Shower, count: u32) -> Result<Many<Reader>, NoMemory>
    ensures shower { shower.new ≡ shower.old }
    ensures readers { IfOk result (λ readers. readers ≡ replicate count shower.old.shown) }
{
    let mut readers = Many::new(alloc);
    'readers: for _ in 0..count {
        readers.push(shower.reader()?)?;
    }
    Ok(readers)
}
