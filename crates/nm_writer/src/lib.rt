//! Committing and publishing: the writer, which opens the index that a disk holds, keeps it there commit by commit, and shows it to
//! readers after each.
#![tactic(auto)]

mod commit;
mod name_tags;
mod new;
mod startup;
mod tag;
mod write_error;
mod writer;

pub use startup::Opened;
pub use write_error::WriteError;
pub use writer::Writer;
