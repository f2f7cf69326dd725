//! The work of a phase, which `nm_phase` has done: all lanes at once, and each passes a gate before its work and after it.

ghost use Rattle.std.specs.Prelude.{◌≤◌, ◌<◌, ℕ, length, slice_index_or};
ghost use Rattle.std.specs.List.{All, AllZip};

use nm_workers::Gate;
use std::sync::Wait;
use std::thread;
use std::thread::{Threads, join_mut};

/// How many seats pass a gate before their work; each passes again under its number and n more.
const SEATS: u32 = 16;

/// The work of a lane in a phase, with all that it holds.
pub trait LaneWork {
    /// What it holds when it may be worked.
    ghost ready: { Self → Type 0 };

    /// What it may hold afterwards, by what it held before.
    ghost does: { Self → Self → Type 0 };

    /// The number of the lane.
    fn seat(&self) -> u32
        ensures { result ≤ 15 };

    /// Does all work of the lane. Where memory runs out, what it holds afterwards says so.
    fn work<R: Threads + Wait + Sync>(&mut self, rt: &R)
        requires { ready self.old }
        ensures { does self.old self.new };
}

/// Works the writer's lane in this thread and each other lane in one of its own, all at once, and joins them.
/// Where no thread can be started, the caller does that work; where there is no other lane, none is. It takes no memory of its own.
pub fn run_phase<R: Threads + Wait + Sync, W: LaneWork, L: LaneWork + Send, G: Gate + Sync>(
    rt: &R,
    writer: &mut W,
    lanes: &mut [L],
    gate: &G,
)
    requires writer { W.ready writer.old }
    requires lanes { All L.ready lanes.old }
    ensures writer { W.does writer.old writer.new }
    ensures lanes { AllZip L.does lanes.old lanes.new }
{
    if lanes.is_empty() {
        work_at_gate(rt, gate, writer);
        return;
    }
    join_mut(
        rt,
        &mut ||
            requires { All L.ready lanes.now }
            ensures { AllZip L.does lanes.entry.now lanes.exit.now }
        { work_lanes(rt, gate, lanes) },
        &mut ||
            requires { W.ready writer.now }
            ensures { W.does writer.entry.now writer.exit.now }
        { work_at_gate(rt, gate, writer) },
    );
}

fn work_lanes<R: Threads + Wait + Sync, L: LaneWork + Send, G: Gate + Sync>(
    rt: &R,
    gate: &G,
    lanes: &mut [L],
)
    requires { All L.ready lanes.old }
    ensures { AllZip L.does lanes.old lanes.new }
{
    let count = lanes.len();
    if count > 0 {
        work_each(rt, gate, count, lanes);
    }
}

/// Works each lane, in n threads.
fn work_each<R: Threads + Wait + Sync, L: LaneWork + Send, G: Gate + Sync>(
    rt: &R,
    gate: &G,
    threads: usize,
    lanes: &mut [L],
)
    requires threads { 0 < threads }
    requires lanes { All L.ready lanes.old }
    ensures { (at : ℕ) → (other : L) → at < length lanes.old → L.does (slice_index_or lanes.old at other) (slice_index_or lanes.new at other) }
{
    let work = |_: usize, lane: &mut L|
        requires { L.ready lane.now }
        ensures { L.does lane.entry.now lane.exit.now }
    { work_at_gate(rt, gate, lane) };
    thread::for_each_mut(rt, lanes, threads, &work);
}

/// Passes the gate, works the lane, and passes the gate again.
fn work_at_gate<R: Threads + Wait + Sync, L: LaneWork, G: Gate>(rt: &R, gate: &G, lane: &mut L)
    requires { L.ready lane.old }
    ensures { L.does lane.old lane.new }
{
    let seat = lane.seat();
    gate.pass(rt, seat);
    lane.work(rt);
    gate.pass(rt, seat + SEATS);
}
