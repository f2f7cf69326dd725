//! Commands and replies: what the words of a line ask for, made ready: its query has a tree, and each line of its input is read.
#![tactic(auto)]

mod prepared;

pub use prepared::{AskError, Prepared, Reading, prepare, prepare_line};
