//! Commands and replies: the top call: runs the lines of a script or a single command over the index that the disk holds and a mail folder, prints the
//! replies, and gives the status.
#![tactic(auto)]

mod call_end;
mod devices;
mod drill;
mod laws;
mod program_start;
mod top_call;

pub use nm_log::{Done, LineLog, Outcome, SessionLog, Setting};
pub use nm_maildir::{Given, ReadAnswer};
pub use nm_model_answer::Request;
pub use nm_model_machine::Step;
pub use program_start::{Start, program};
pub use top_call::notmuch;
