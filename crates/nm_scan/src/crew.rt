//! The workers of a batch and what each job of theirs needs, for `batch_reader`, `parts` and `classes`.

use std::alloc::Global;

/// 1 to 16 workers, who pass the gate.
#[derive(Drop)]
pub(crate) struct Crew<'a, R, G> {
    pub rt: &'a R,
    pub alloc: Global,
    pub workers: u32,
    pub gate: &'a G,
}
