//! Searching: which messages of a snapshot a query finds, tested message by message: those of the ids that it names,
//! or else all.
#![tactic(auto)]

mod exclusion;
mod laws;
mod matcher;
mod message;
mod named_ids;
mod numbers;
mod places;
mod prepared_query;
mod query_test;
mod quick;
mod words;

pub use laws::{the_live_ones_stand_at_their_numbers, what_passes_is_named};
pub use matcher::matches;
pub use numbers::{add_numbered, by_numbers};
