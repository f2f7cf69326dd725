//! Commands and replies: the log of a session while it runs: its places, made before the index is opened, and a trace of marks, of which
//! the steps of the log are made when the session ends.
#![tactic(auto)]

mod machine_steps;
mod reserved_log;
mod trace;

pub use machine_steps::push_steps;
pub use reserved_log::{ReservedLog, take_fallback};
pub use trace::{Mark, Trace, place_of};
