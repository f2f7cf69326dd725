//! Committing and publishing: an index and a mail folder are brought in step: what a listing has that the index lacks and what of the
//! index is missing, the renames that follow tags, and what a `new` reports of it.
#![tactic(auto)]

mod comparison;
mod laws;
mod merge;
mod new_report;
mod renames;

pub use comparison::{Compared, compare};
pub use laws::{a_new_asks_what_it_notes, no_rename_is_noted_at_first};
pub use new_report::report;
pub use renames::{RenameLog, rename_and_sync};
