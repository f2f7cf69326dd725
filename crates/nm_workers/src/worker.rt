//! One worker, of those that `map_jobs` begins: it takes the next input that nobody has taken, until none is left.

ghost use Rattle.std.specs.Prelude.{◌<◌, ◌≤◌, IfOk};
ghost use Rattle.nm_workers.specs.Results.{AreGiven};

use crate::{Gate, Job};
use nm_base::NoMemory;
use std::alloc::Global;
use std::sync::Wait;
use std::sync::atomic::AtomicUsize;
use std::sync::atomic::Ordering::SeqCst;
use std::thread::Threads;

/// A result, and the place of its input.
#[derive(Drop)]
pub struct Placed<T> {
    pub at: usize,
    pub value: T,
}

/// What the workers share. Each counts in `taken` the inputs that somebody has taken.
#[derive(Drop)]
pub struct Team<'a, R, J: Job, G> {
    pub rt: &'a R,
    pub alloc: Global,
    pub job: &'a J,
    pub inputs: &'a [J::In],
    pub taken: &'a AtomicUsize,
    pub gate: &'a G,
}

/// Passes the gate and then does what is left, beside the others.
pub fn work<R: Threads + Wait + Sync, J: Job, G: Gate>(
    team: &Team<'_, R, J, G>,
    seat: u32,
) -> Result<Vec<Placed<J::Out>>, NoMemory>
    requires seat { (0 < seat) × (seat ≤ 16) }
    ensures { IfOk result (λ done. AreGiven (J.gives team.now.job.now) team.now.inputs.now done.items) }
{
    team.gate.pass(team.rt, seat);
    run_left(team.alloc, team.job, team.inputs, team.taken)
}

fn run_left<J: Job>(
    alloc: Global,
    job: &J,
    inputs: &[J::In],
    taken: &AtomicUsize,
) -> Result<Vec<Placed<J::Out>>, NoMemory>
    ensures { IfOk result (λ done. AreGiven (J.gives job.now) inputs.now done.items) }
{
    let mut done = Vec::new(alloc);
    'turns: for _ in 0..inputs.len() {
        let at = taken.fetch_add(1, SeqCst);
        if at >= inputs.len() {
            break;
        }
        let value = job.run(&inputs[at])?;
        done.push(Placed { at, value })?;
    }
    Ok(done)
}
