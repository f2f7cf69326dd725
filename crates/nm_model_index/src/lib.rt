//! The model: the index as data, when that is valid, and what each commit makes of it. The definitions speak of lists
//! alone; threads and names are worked out from them.
#![tactic(auto)]

mod base;
mod laws;

pub use base::Base;
pub use laws::{
    files_follow_their_changes, files_follow_their_commits, numbers_never_fall,
    numbers_rise_with_the_ids_named, tags_of_others_stay, the_revision_counts_the_commits,
};
