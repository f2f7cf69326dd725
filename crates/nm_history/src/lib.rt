//! Commands and replies: the statement of a session, as definitions over what it began with, what it was told, what is observed
//! of the devices, and its log; and the laws by which a session's loop keeps them line by line.
#![tactic(auto)]

mod lane_zero_laws;
mod laws;
mod other_lane_laws;

pub use lane_zero_laws::{
    a_line_more_is_printed_last, a_line_more_keeps_the_answers, a_line_more_keeps_the_clocks,
    a_line_more_keeps_the_commits, a_line_more_keeps_the_first_fault, a_line_more_keeps_the_given,
    a_line_more_keeps_the_machine_run, a_line_more_keeps_where_it_stands, no_line_is_answered,
    no_line_makes_no_commit, no_line_stands_at_the_opening, no_step_is_a_run_of_the_machine,
    nothing_is_given_to_no_line,
};
pub use laws::{
    a_call_that_reads_nothing_is_not_refused_for_its_input, a_disk_fault_is_the_status,
    a_history_is_complete, a_mail_fault_is_the_status, a_refused_line_is_a_history,
    a_refused_opening_keeps_the_index, a_session_keeps_its_commits, an_index_at_a_revision_is_one,
    no_line_is_closed_without_a_fault, the_tree_follows_renames,
    what_writes_after_a_disk_fault_is_closed,
};
pub use other_lane_laws::{
    a_barrier_keeps_the_machine_run, a_lane_read_commits_nothing, a_lane_read_keeps_the_answers,
    a_lane_read_keeps_the_machine_run, later_steps_keep_the_answers,
    what_commits_nothing_keeps_the_commits, what_stands_between_keeps_the_answers,
    what_stands_between_keeps_the_commits,
};
