//! Searching: the documents of a cursor for which a stored condition holds.
//! A condition is asked of a document's number, so it may look into a snapshot that it borrows.
#![tactic(auto)]

mod condition;
mod kept;

pub use condition::Condition;
pub use kept::Kept;
