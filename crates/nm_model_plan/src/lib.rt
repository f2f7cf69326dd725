//! The model: which commits a command makes, as definitions on the index as data and on what the mail folder gave.
#![tactic(auto)]

mod laws;
mod tag_laws;

pub use laws::{
    a_message_that_stays_keeps_its_tags, files_stay_apart, new_commits_fit,
    new_leaves_what_is_listed, numbers_stay_in_order, tags_follow_the_names,
    the_files_after_batches, the_files_after_new,
};
pub use tag_laws::{
    a_line_tags_what_it_finds, tag_commits_fit, the_commit_of_tags_leaves_what_is_wanted,
};
