//! Commands and replies: the lines of an input, queries to count or changes of tags.
#![tactic(auto)]

mod laws;
mod lines;
mod queries;
mod taggings;

pub use laws::{
    changes_are_read_line_by_line, lines_before_move_a_fault_and_leave_it,
    queries_are_read_line_by_line,
};
pub use queries::read_queries;
pub use taggings::read_taggings;
