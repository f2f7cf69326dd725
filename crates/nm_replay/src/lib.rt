//! Committing and publishing: the index that the head file holds, as the commits in its records are replayed; and the snapshot after a
//! commit.
#![tactic(auto)]

mod bodies;
mod head;
mod laws;
mod next_index;
mod open_error;
mod replay;

pub use head::{Replayed, replay_head};
pub use laws::{
    an_index_is_held_once, one_commit_more_is_held, one_limit_is_passed,
    what_holds_an_index_is_not_bad, what_keeps_the_limits_passes_none,
    what_passes_a_limit_is_not_bad,
};
pub use next_index::next_snapshot;
pub use open_error::OpenError;
