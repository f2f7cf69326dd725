//! The results of all workers, put into the order of the inputs, for `map_jobs`.

ghost use Rattle.std.specs.Prelude.{◌≡◌, ◌<◌, length, replicate, None, IfOk, All};
ghost use Rattle.std.specs.List.{AllZip};
ghost use Rattle.nm_workers.specs.Results.{GivesAt, AreGiven, FitPlaces};

use crate::Job;
use crate::worker::Placed;
use nm_base::{Many, NoMemory};
use std::alloc::Global;

/// Places without a result.
fn no_results<T: Drop>(alloc: Global, count: usize) -> Result<Many<Option<T>>, NoMemory>
    ensures { IfOk result (λ places. places ≡ replicate count None) }
{
    let mut places = Many::new(alloc);
    'places: for _ in 0..count {
        places.push(None)?;
    }
    Ok(places)
}

/// Puts a result into the place of its input.
#[tactic(auto, using(crate::proofs::PlaceLemmas::put_place, crate::proofs::PlaceLemmas::has_place))]
fn put<J: Job>(job: &J, inputs: &[J::In], placed: Placed<J::Out>, places: &mut Many<Option<J::Out>>)
    requires given { GivesAt (J.gives job.now) inputs.now placed.at placed.value }
    requires places { FitPlaces (J.gives job.now) inputs.now places.old }
    ensures { FitPlaces (J.gives job.now) inputs.now places.new }
{
    let Placed { at, value } = placed;
    places.replace(at, Some(value));
}

/// Puts all that a worker did into the places of its inputs.
fn put_all<J: Job>(
    job: &J,
    inputs: &[J::In],
    done: Vec<Placed<J::Out>>,
    places: &mut Many<Option<J::Out>>,
)
    requires done { AreGiven (J.gives job.now) inputs.now done.items }
    requires places { FitPlaces (J.gives job.now) inputs.now places.old }
    ensures { FitPlaces (J.gives job.now) inputs.now places.new }
{
    'done: for placed in done {
        put(job, inputs, placed, places);
    }
}

/// The result in a place, or the job done here where no worker did it.
#[tactic(auto, using(crate::proofs::PlaceLemmas::take_place))]
fn take_or_run<J: Job>(
    job: &J,
    inputs: &[J::In],
    places: &mut Many<Option<J::Out>>,
    at: usize,
) -> Result<J::Out, NoMemory>
    requires inside { at < length inputs.now }
    requires places { FitPlaces (J.gives job.now) inputs.now places.old }
    ensures value { IfOk result (λ value. GivesAt (J.gives job.now) inputs.now at value) }
    ensures places { FitPlaces (J.gives job.now) inputs.now places.new }
{
    match places.replace(at, None) {
        Some(value) => Ok(value),
        None => job.run(&inputs[at]),
    }
}

/// The results in the order of the inputs.
#[tactic(auto, using(crate::proofs::PlaceLemmas::one_more))]
fn in_order<J: Job>(
    alloc: Global,
    job: &J,
    inputs: &[J::In],
    mut places: Many<Option<J::Out>>,
) -> Result<Many<J::Out>, NoMemory>
    requires { FitPlaces (J.gives job.now) inputs.now places }
    ensures { IfOk result (λ results. AllZip (J.gives job.now) inputs.now results) }
{
    let mut results = Many::new(alloc);
    'inputs: for at in 0..inputs.len() {
        results.push(take_or_run(job, inputs, &mut places, at)?)?;
    }
    Ok(results)
}

/// Gathers what the workers did.
#[tactic(auto, using(crate::proofs::PlaceLemmas::empty_places))]
pub fn gather<J: Job>(
    alloc: Global,
    job: &J,
    inputs: &[J::In],
    lists: Vec<Result<Vec<Placed<J::Out>>, NoMemory>>,
) -> Result<Many<J::Out>, NoMemory>
    requires { All (λ list. IfOk list (λ done. AreGiven (J.gives job.now) inputs.now done.items)) lists.items }
    ensures { IfOk result (λ results. AllZip (J.gives job.now) inputs.now results) }
{
    let mut places = no_results(alloc, inputs.len())?;
    'lists: for list in lists {
        put_all(job, inputs, list?, &mut places);
    }
    in_order(alloc, job, inputs, places)
}
