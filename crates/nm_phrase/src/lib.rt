//! Searching: the documents of a segment in which words come one after the other in one list, the last whole or by its
//! front. What is found is a cursor.
#![tactic(auto)]

mod documents;
mod ends;
mod follow;
mod front;
mod laws;
mod phrase;
mod start;

pub use laws::{a_word_is_found_where_it_hits, documents_are_found_where_the_words_end};
pub use phrase::Phrase;
pub use start::Start;
