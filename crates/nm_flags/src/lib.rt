//! The model: which tags the names of a message's files give it, and which files have to be renamed for its tags.
#![tactic(auto)]

mod laws;
mod renames;
mod tags;

pub use laws::{
    each_letter_follows_its_tag, each_tag_follows_its_letter, only_the_five_tags_follow_the_names,
    unread_is_what_no_file_has_seen,
};
pub use renames::{Rename, rename_plan};
pub use tags::tags_from_names;
