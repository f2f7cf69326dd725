//! What the bodies of records encode, which several workers read at once, for `head`. The words of a mail stay in the bytes of its
//! record.

ghost use Rattle.std.specs.Prelude.{◌≡◌, ◌<◌, ◌≤◌, IfOk};
ghost use Rattle.std.specs.List.{AllZip};
ghost use Rattle.nm_replay.specs.OpenFaults.{IsRead};

use nm_base::{Many, NoMemory, SharedBytes};
use nm_codec::ReadError;
use nm_commit::Commit;
use nm_record::read_shared_commit;
use nm_workers::{Job, OpenGate, map_jobs};
use std::alloc::Global;
use std::sync::Wait;
use std::thread::Threads;

/// The job of the workers: a body is read as the commit that it encodes, or as none.
#[derive(Clone, Copy)]
struct ReadBody {
    alloc: Global,
}

impl Job for ReadBody {
    type In = SharedBytes;

    type Out = Option<Commit>;

    ghost use Rattle.nm_replay.specs.OpenFaults.{IsRead};

    ghost gives = { λ _ body read. IsRead body read };

    fn run(&self, body: &SharedBytes) -> Result<Option<Commit>, NoMemory> {
        match read_shared_commit(self.alloc, body) {
            Ok(commit) => Ok(Some(commit)),
            Err(ReadError::Bad { .. }) => Ok(None),
            Err(ReadError::NoMemory) => Err(NoMemory),
        }
    }
}

/// The bodies, each of which the commit that is read from it may share.
pub(crate) fn shared_bodies(
    alloc: Global,
    bodies: Many<Many<u8>>,
) -> Result<Many<SharedBytes>, NoMemory>
    ensures { IfOk result (λ shared. shared ≡ bodies) }
{
    let mut shared = Many::new(alloc);
    'bodies: for body in bodies.into_vec() {
        shared.push(SharedBytes::new(alloc, body.into_vec())?)?;
    }
    Ok(shared)
}

/// The commits that the bodies encode, each in the place of its body.
pub(crate) fn read_bodies<R: Threads + Wait + Sync>(
    rt: &R,
    alloc: Global,
    workers: u32,
    bodies: &Many<SharedBytes>,
) -> Result<Many<Option<Commit>>, NoMemory>
    requires workers { (0 < workers) × (workers ≤ 16) }
    ensures { IfOk result (λ read. AllZip IsRead bodies.now read) }
{
    // One body or none is not worth a thread.
    let workers = if bodies.len() < 2 { 1 } else { workers };
    map_jobs(rt, alloc, &ReadBody { alloc }, bodies, workers, &OpenGate)
}
