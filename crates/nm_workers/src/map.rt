//! A job over many inputs, by several workers, as `nm_scan` and `nm_writer` have it done.

ghost use Rattle.std.specs.Prelude.{◌<◌, ◌≤◌, IfOk};
ghost use Rattle.std.specs.List.{All, AllZip};
ghost use Rattle.std.specs.Thread.{IsSend, IsSync};
ghost use Rattle.nm_workers.specs.Results.{AreGiven};

use crate::results::gather;
use crate::worker::{Placed, Team, work};
use crate::{Gate, Job};
use nm_base::{Many, NoMemory};
use std::alloc::Global;
use std::sync::Wait;
use std::sync::atomic::AtomicUsize;
use std::thread::{Threads, join_mut};

/// The seats of the workers that are still to be started.
#[derive(Clone, Copy)]
struct Seats {
    next: u32,
    last: u32,
}

/// Runs the job over the inputs with 1 to 16 workers, which pass the gate as seats 1, 2 and so on. The results are in
/// the order of the inputs. Where no thread can be started, the caller does the work.
pub fn map_jobs<R: Threads + Wait + Sync, J: Job + Sync, G: Gate + Sync>(
    rt: &R,
    alloc: Global,
    job: &J,
    inputs: &Many<J::In>,
    workers: u32,
    gate: &G,
) -> Result<Many<J::Out>, NoMemory>
where
    J::In: Sync,
    J::Out: Send,
    requires workers { (0 < workers) × (workers ≤ 16) }
    ensures { IfOk result (λ results. AllZip (J.gives job.now) inputs.now results) }
{
    map_jobs_beside(rt, alloc, job, inputs, workers, gate, &mut || {}).1
}

/// The same, and the caller, whose seat is the last one, does something else once before it works: what that returned comes first.
pub fn map_jobs_beside<
    R: Threads + Wait + Sync,
    J: Job + Sync,
    G: Gate + Sync,
    F: FnMut() -> T,
    T: Drop,
>(
    rt: &R,
    alloc: Global,
    job: &J,
    inputs: &Many<J::In>,
    workers: u32,
    gate: &G,
    beside: &mut F,
) -> (T, Result<Many<J::Out>, NoMemory>)
where
    J::In: Sync,
    J::Out: Send,
    requires workers { (0 < workers) × (workers ≤ 16) }
    requires beside { F.pre beside.old }
    ensures beside { F.step beside.old result.0 beside.new }
    ensures results { IfOk result.1 (λ results. AllZip (J.gives job.now) inputs.now results) }
{
    let taken = AtomicUsize::new(0);
    let team = Team {
        rt,
        alloc,
        job,
        inputs: inputs.as_slice(),
        taken: &taken,
        gate,
    };
    let seats = Seats {
        next: 1,
        last: workers,
    };
    let (told, lists) = run_workers(&team, seats, beside);
    match lists {
        Ok(lists) => (told, gather(alloc, job, inputs.as_slice(), lists)),
        Err(NoMemory) => (told, Err(NoMemory)),
    }
}

/// What each worker did. The threads are started one after the other, from the caller's; the last seat is the caller's own. Were each
/// to start others, the system might give two that start at the same moment one processor, while another has nothing to do.
fn run_workers<R: Threads + Wait + Sync, J: Job + Sync, G: Gate + Sync, F: FnMut() -> T, T: Drop>(
    team: &Team<'_, R, J, G>,
    seats: Seats,
    beside: &mut F,
) -> (
    T,
    Result<Vec<Result<Vec<Placed<J::Out>>, NoMemory>>, NoMemory>,
)
where
    J::In: Sync,
    J::Out: Send,
    requires first { 0 < seats.next }
    requires order { seats.next ≤ seats.last }
    requires last { seats.last ≤ 16 }
    requires beside { F.pre beside.old }
    ensures beside { F.step beside.old result.0 beside.new }
    ensures lists { IfOk result.1 (λ lists. All (λ list. IfOk list (λ done. AreGiven (J.gives team.now.job.now) team.now.inputs.now done.items)) lists.items) }
{
    let Seats { next, last } = seats;
    if next >= last {
        let told = beside();
        let done = work(team, last);
        return (told, with_list(team, Ok(Vec::new(team.alloc)), done));
    }
    let further = Seats {
        next: next + 1,
        last,
    };
    let (done, (told, lists)) = join_mut(
        team.rt,
        &mut || -> Result<Vec<Placed<J::Out>>, NoMemory>
            requires { (0 < next) × (next ≤ 16) }
            ensures { IfOk result (λ done. AreGiven (J.gives team.entry.now.job.now) team.entry.now.inputs.now done.items) }
        { work(team, next) },
        &mut || -> (
            T,
            Result<Vec<Result<Vec<Placed<J::Out>>, NoMemory>>, NoMemory>,
        )
            requires { IsSync R.row × IsSync J.row × IsSync G.row × IsSync J.In.row × IsSend J.Out.row × (0 < further.next) × (further.next ≤ further.last) × (further.last ≤ 16) × F.pre beside.now }
            ensures beside { F.step beside.entry.now result.0 beside.exit.now }
            ensures lists { IfOk result.1 (λ lists. All (λ list. IfOk list (λ done. AreGiven (J.gives team.entry.now.job.now) team.entry.now.inputs.now done.items)) lists.items) }
        { run_workers(team, further, beside) },
    );
    (told, with_list(team, lists, done))
}

/// What one worker more did, after the others. The team is there for the clauses alone.
fn with_list<R, J: Job, G>(
    _team: &Team<'_, R, J, G>,
    lists: Result<Vec<Result<Vec<Placed<J::Out>>, NoMemory>>, NoMemory>,
    done: Result<Vec<Placed<J::Out>>, NoMemory>,
) -> Result<Vec<Result<Vec<Placed<J::Out>>, NoMemory>>, NoMemory>
    requires lists { IfOk lists (λ lists. All (λ list. IfOk list (λ done. AreGiven (J.gives _team.now.job.now) _team.now.inputs.now done.items)) lists.items) }
    requires done { IfOk done (λ done. AreGiven (J.gives _team.now.job.now) _team.now.inputs.now done.items) }
    ensures { IfOk result (λ lists. All (λ list. IfOk list (λ done. AreGiven (J.gives _team.now.job.now) _team.now.inputs.now done.items)) lists.items) }
{
    let mut lists = lists?;
    lists.push(done)?;
    Ok(lists)
}
