//! Gates: what every seat passes before it works, in `worker` and in the lanes of `nm_lanes`. A gate may hold a seat;
//! it changes no answer.

use std::sync::Wait;
use std::thread::Threads;

/// What a seat passes. No contract says how long it takes.
pub trait Gate {
    fn pass<R: Threads + Wait + Sync>(&self, rt: &R, seat: u32);
}

/// The gate that holds nobody.
#[derive(Clone, Copy)]
pub struct OpenGate;

impl Gate for OpenGate {
    fn pass<R: Threads + Wait + Sync>(&self, _rt: &R, _seat: u32) {}
}
