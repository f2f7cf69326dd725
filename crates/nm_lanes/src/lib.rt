//! Commands and replies: scripts, whose lines say in which lane and phase each command runs, and the work of a phase,
//! all lanes at once.
#![tactic(auto)]

mod laws;
mod line;
mod phase;
mod reader;
mod script;
mod words;

pub use laws::lines_are_told_where_they_stand;
pub use phase::{LaneWork, run_phase};
pub use script::{Phase, Script, ScriptError, ScriptLine, read_script};
