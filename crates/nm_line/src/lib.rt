//! Commands and replies: what one line is answered: what its words ask for is prepared, and then done, by lane 0 with the index, the mail
//! folder and the disk, by the others on an index alone.
#![tactic(auto)]

mod change;
mod desk;
mod fault_texts;
mod index_replies;
mod lane_zero;
mod laws;
mod line_answer;
mod new;
mod other_lane;
mod restore;
mod show;
mod tag;

pub use desk::Desk;
pub use lane_zero::answer;
pub use laws::what_a_lane_reads_is_said;
pub use line_answer::{LineAnswer, answered_or};
pub use other_lane::lane_read;
