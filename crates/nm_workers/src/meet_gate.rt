//! The gate by which `test_index` and `test_session` tell that two seats worked at once: of the two, the one that comes first
//! waits for the other, for a number of turns.

ghost use Rattle.std.specs.Prelude.{◌≢◌};

use crate::Gate;
use std::sync::Wait;
use std::sync::atomic::AtomicU64;
use std::sync::atomic::Ordering::SeqCst;
use std::thread;
use std::thread::Threads;

/// Nobody has come.
const OPEN: u64 = 0;

/// The first seat waits.
const FIRST: u64 = 1;

/// The second seat waits.
const SECOND: u64 = 2;

/// The other came in time.
const MET: u64 = 3;

/// The turns were spent before the other came.
const SPENT: u64 = 4;

/// Holds whichever of two seats comes first, until the other has come or the turns are spent. Others pass at once.
/// It serves one meeting: once it is over, all pass.
#[derive(Drop)]
pub struct MeetGate {
    first: u32,
    second: u32,
    turns: u64,
    state: AtomicU64,
}

impl MeetGate {
    pub fn new(first: u32, second: u32, turns: u64) -> MeetGate
        requires { first ≢ second }
    {
        MeetGate {
            first,
            second,
            turns,
            state: AtomicU64::new(OPEN),
        }
    }

    /// Whether the other came before the turns were spent. Threads decide it, so no contract tells which.
    pub fn met(&self) -> bool {
        self.state.load(SeqCst) == MET
    }

    fn change(&self, from: u64, to: u64) -> bool {
        self.state
            .compare_exchange(from, to, SeqCst, SeqCst)
            .is_ok()
    }

    /// The seat whose state is `mine` comes. Where the other waits, they have met.
    fn come(&self, mine: u64, others: u64) {
        if self.change(OPEN, mine) {
            self.wait(mine);
        } else {
            self.change(others, MET);
        }
    }

    fn wait(&self, mine: u64) {
        for _ in 0..self.turns {
            if self.met() {
                return;
            }
            thread::yield_now();
        }
        // Where this fails, the other came at the last moment.
        self.change(mine, SPENT);
    }
}

impl Gate for MeetGate {
    fn pass<R: Threads + Wait + Sync>(&self, _rt: &R, seat: u32) {
        if seat == self.first {
            self.come(FIRST, SECOND);
        } else if seat == self.second {
            self.come(SECOND, FIRST);
        }
    }
}
