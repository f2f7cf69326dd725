//! Commands and replies: a drill, which is a trial over mail made by its numbers: the store, as a tree in memory, and the script
//! of its session. `nm_top` runs it.
#![tactic(auto)]

mod answered;
mod digits;
mod laws;
mod lines;
mod mail;
mod script;
mod tree;

pub use laws::{
    a_group_has_five_mails, a_mail_is_dated_by_its_number, no_two_mails_have_one_id,
    the_others_of_a_group_answer_its_first, the_paths_stand_in_byte_order,
    zeros_stand_before_a_number,
};
pub use script::drill_script;
pub use tree::drill_tree;
