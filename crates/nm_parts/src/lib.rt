//! Searching: the parts of a snapshot, and what the changes of a commit make of them, one after the other or by two threads.
#![tactic(auto)]

mod changes;
mod commit_changes;
mod halves;
mod message_tags;
mod parts;
mod removal;
mod thread_ids;

pub use changes::tag_message;
pub use commit_changes::apply_changes;
pub use halves::{apply_by_halves, take_none_out};
pub use message_tags::set_tags;
pub use parts::Parts;
pub use thread_ids::row_of;
