//! Commands and replies: the texts of replies that the index alone says, made over a snapshot.
#![tactic(auto)]

mod authors;
mod body;
mod count;
mod groups;
mod items;
mod lists;
mod mailboxes;
mod message;
mod order;
mod search;
mod show;
mod shown;
mod summary;
mod summary_json;
mod text_lists;

pub use count::{count_reply, counts_reply};
pub use search::search_reply;
pub use show::{ShowError, lead_paths, show_text, shown_ids};
