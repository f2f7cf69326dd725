//! The model: what each request is answered, as definitions on the index as data; later layers compute the same texts.
#![tactic(auto)]

mod laws;
mod report;
mod request;
mod search_laws;
mod summary;
mod sync_report;
mod tag_change;

pub use laws::{
    a_tag_excludes_unless_it_is_named, a_tree_names_the_tags_of_its_queries,
    a_tree_passes_as_its_queries_do, the_matches_are_the_live_messages_that_pass,
    words_stand_one_after_the_other,
};
pub use report::NewReport;
pub use request::Request;
pub use search_laws::{
    an_offset_and_a_limit_cut_a_part, each_thread_is_told_once,
    items_of_one_rank_stay_in_their_order, messages_are_told_by_date,
    threads_stand_where_their_first_messages_do,
};
pub use summary::ThreadSummary;
pub use sync_report::{SyncReport, Unmoved};
pub use tag_change::TagChange;
