//! Searching: the documents of tiers that live and have words, found by the hits of these words.
#![tactic(auto)]

mod asked;
mod documents;
mod fields;
mod one_word;

pub use asked::AskedWords;
pub use documents::find;
