//! Commands and replies: a session: opens the index that a disk holds, runs the phases of a script over it and a mail folder, prints the
//! replies of each, and tells what each line did. A single command is one line, run without lanes round it.
#![tactic(auto)]

mod command;
mod laws;
mod phases;
mod plan;
mod print;
mod session;

pub use command::run_command;
pub use session::run_session;
