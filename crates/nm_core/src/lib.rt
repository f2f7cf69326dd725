//! Tests: the machine of commits and replies, run over snapshots, for the rows of `test_session`: a step is refused exactly where
//! the machine does not allow it, and a reply costs what its query costs.
#![tactic(auto)]

mod machine;
mod reply;

pub use machine::{Core, CoreError};
