//! Commands and replies: one phase of a session: all lanes at once, lane 0 over the writer and each other lane over what is shown. Then
//! what the others read is noted, and the phase ends.
#![tactic(auto)]

mod barrier;
mod first_lane;
mod lane_log;
mod laws;
mod line;
mod reader_lane;
mod reads;
mod stage;

pub use laws::{a_line_keeps_the_writer_even, a_line_replies_once, turns_leave_the_other_places};
pub use line::{AskedLine, run_line};
pub use reader_lane::{LANES, Observation, ReaderLane};
pub use stage::{Asked, Stage};
