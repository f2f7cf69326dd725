//! The model: the lawful orders of commits, publications, reads, replies and crashes, as a machine over the index as data:
//! definitions and laws alone.
#![tactic(auto)]

mod laws;
mod step;

pub use laws::{
    nothing_falls, only_what_is_shown_is_seen, what_was_met_is_seen, what_was_reopened_is_seen,
};
pub use nm_model_answer::Request;
pub use step::Step;
