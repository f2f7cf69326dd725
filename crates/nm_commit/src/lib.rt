//! The model: the changes of an index, and the commits that are made of them; the definitions say which commits fit the files
//! of an index, and which files they leave.
#![tactic(auto)]

mod change;

pub use change::{Change, Commit};
