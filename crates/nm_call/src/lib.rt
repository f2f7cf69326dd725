//! Commands and replies: what a call asks for, before another device than its input is asked: its words are tested, and its script
//! is read, or the request of a single command is prepared over the lines that it reads.
#![tactic(auto)]

mod command_call;
mod prepared_call;
mod session_call;

pub use prepared_call::{CallError, PreparedCall, is_first, read_call};
pub use session_call::read_phases;
